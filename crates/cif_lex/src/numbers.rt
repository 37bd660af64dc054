//! The values of numbers.

ghost use Rattle.std.specs.Prelude.{◌≡◌};
ghost use Rattle.cif_lex.specs.Tokens as tokens;
ghost use Rattle.cif_lex.specs.Cutting as cutting;

const GREATEST_NUMBER: u64 = 2147483647;

/// The number that these digits stand for; `None` where it exceeds 2147483647.
#[tactic(auto, unfolding(crate::specs::Tokens::small_number, crate::specs::Tokens::number_of))]
pub fn small_number(digits: &[u8]) -> Option<u32>
    ensures { result ≡ tokens.small_number digits.now }
{
    let mut value: u64 = 0;
    for digit in digits {
        value = 10 * value + u64::from(digit.saturating_sub(b'0'));
        if value > GREATEST_NUMBER {
            return None;
        }
    }
    Some(value as u32)
}

/// Whether the number that these digits stand for is at most 2147483647.
#[tactic(auto, unfolding(crate::specs::Cutting::is_small, crate::specs::Tokens::small_number))]
pub fn is_small(digits: &[u8]) -> bool
    ensures { result ≡ cutting.is_small digits.now }
{
    small_number(digits).is_some()
}

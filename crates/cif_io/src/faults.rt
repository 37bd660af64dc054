//! Which calls fail, where a caller chose them by their numbers.

ghost use Rattle.std.specs.Prelude.{◌≡◌};
ghost use Rattle.cif_io.specs.Faults.{is_chosen};

/// Whether the call of this number is one of those chosen to fail.
pub(crate) fn is_chosen_call(fails: &[u32], call: u64) -> bool
    ensures { result ≡ is_chosen fails.now call }
{
    fails.iter().any(|k| u64::from(*k) == call)
}

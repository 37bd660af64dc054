//! Intervals of whole numbers of 64 bits.

ghost use Rattle.std.specs.Prelude.{◌≡◌, ◌≢◌, ℤ, pos, ◌≤ℤ◌, ◌*ℤ◌, int_le, int_div, nat_abs, Option, Some, None, IsTrue, ◌↔◌, if◌then◌else◌};
ghost use Rattle.std.specs.Int.{int_min, int_max};
ghost use Rattle.cif_base.specs.Bounds.{Bounds, between, contains, neg_bounds, add_bounds, sub_bounds, of_four, mul_bounds, div_bounds, least_abs, greatest_abs, least_rem, greatest_rem, rem_bounds, abs_bounds, min_bounds, max_bounds, join_bounds, within_64, divided_by};

use std::marker::Model;

/// The whole numbers from `lo` to `hi`, both included, of which there is at least one. Contracts see its bounds.
#[derive(Clone, Copy, Debug, PartialEq, Eq)]
pub struct Iv {
    lo: i64,
    hi: i64,
}

impl Model for Iv {
    ghost use Rattle.std.specs.Prelude.{◌≤ℤ◌};
    ghost use Rattle.cif_base.specs.Bounds.{Bounds};

    ghost Value = { Bounds };

    ghost view = { λ a. record { lo = a.lo; hi = a.hi } };

    ghost invariant = { λ a. a.lo ≤ℤ a.hi };

    ghost inverse = { λ b. record { lo = b.lo; hi = b.hi } };
}

impl Iv {
    /// The numbers from `lo` to `hi`.
    pub fn new(lo: i64, hi: i64) -> Iv
        requires { lo ≤ℤ hi }
        ensures { result ≡ between lo hi }
    {
        Iv { lo, hi }
    }

    /// The numbers from `lo` to `hi`; `None` where there is none.
    pub fn try_new(lo: i64, hi: i64) -> Option<Iv>
        ensures { result ≡ (if int_le lo hi then Some (between lo hi) else None) }
    {
        if lo <= hi { Some(Iv { lo, hi }) } else { None }
    }

    /// One number.
    pub fn point(value: i64) -> Iv
        ensures { result ≡ between value value }
    {
        Iv {
            lo: value,
            hi: value,
        }
    }

    pub fn lo(self) -> i64
        ensures bound { result ≡ self.lo }
        ensures order { self.lo ≤ℤ self.hi }
    {
        self.lo
    }

    pub fn hi(self) -> i64
        ensures bound { result ≡ self.hi }
        ensures order { self.lo ≤ℤ self.hi }
    {
        self.hi
    }

    pub fn contains(self, value: i64) -> bool
        ensures { result ≡ contains self value }
    {
        self.lo <= value && value <= self.hi
    }

    /// `None` where a bound of the sums leaves 64 bits. This holds of the other operators too.
    pub fn add(self, other: Iv) -> Option<Iv>
        ensures { result ≡ within_64 (add_bounds self other) }
    {
        narrowed(
            i128::from(self.lo) + i128::from(other.lo),
            i128::from(self.hi) + i128::from(other.hi),
        )
    }

    pub fn sub(self, other: Iv) -> Option<Iv>
        ensures { result ≡ within_64 (sub_bounds self other) }
    {
        narrowed(
            i128::from(self.lo) - i128::from(other.hi),
            i128::from(self.hi) - i128::from(other.lo),
        )
    }

    pub fn mul(self, other: Iv) -> Option<Iv>
        ensures { result ≡ within_64 (mul_bounds self other) }
    {
        around(
            product(self.lo, other.lo),
            product(self.lo, other.hi),
            product(self.hi, other.lo),
            product(self.hi, other.hi),
        )
    }

    /// `None` also where `other` has 0. It rounds towards zero.
    pub fn div(self, other: Iv) -> Option<Iv>
        ensures { result ≡ divided_by other (within_64 (div_bounds self other)) }
    {
        if other.contains(0) {
            return None;
        }
        around(
            quotient(self.lo, other.lo),
            quotient(self.lo, other.hi),
            quotient(self.hi, other.lo),
            quotient(self.hi, other.hi),
        )
    }

    /// `None` also where `other` has 0.
    pub fn rem(self, other: Iv) -> Option<Iv>
        ensures { result ≡ divided_by other (within_64 (rem_bounds self other)) }
    {
        if other.contains(0) {
            return None;
        }
        let most = other.greatest_abs() - 1;
        narrowed(
            least_rem(i128::from(self.lo), most),
            greatest_rem(i128::from(self.hi), most),
        )
    }

    pub fn neg(self) -> Option<Iv>
        ensures { result ≡ within_64 (neg_bounds self) }
    {
        narrowed(-i128::from(self.hi), -i128::from(self.lo))
    }

    pub fn abs(self) -> Option<Iv>
        ensures { result ≡ within_64 (abs_bounds self) }
    {
        narrowed(self.least_abs(), self.greatest_abs())
    }

    pub fn min(self, other: Iv) -> Option<Iv>
        ensures { result ≡ within_64 (min_bounds self other) }
    {
        kept(self.lo.min(other.lo), self.hi.min(other.hi))
    }

    pub fn max(self, other: Iv) -> Option<Iv>
        ensures { result ≡ within_64 (max_bounds self other) }
    {
        kept(self.lo.max(other.lo), self.hi.max(other.hi))
    }

    /// The least interval round both.
    pub fn join(self, other: Iv) -> Option<Iv>
        ensures { result ≡ within_64 (join_bounds self other) }
    {
        kept(self.lo.min(other.lo), self.hi.max(other.hi))
    }

    fn least_abs(self) -> i128
        ensures { result ≡ least_abs self }
    {
        if self.contains(0) {
            0
        } else {
            absolute(self.lo).min(absolute(self.hi))
        }
    }

    fn greatest_abs(self) -> i128
        ensures { result ≡ greatest_abs self }
    {
        absolute(self.lo).max(absolute(self.hi))
    }
}

fn absolute(value: i64) -> i128
    ensures { result ≡ pos (nat_abs value) }
{
    i128::from(value.unsigned_abs())
}

fn product(a: i64, b: i64) -> i128
    ensures { result ≡ a *ℤ b }
{
    i128::from(a) * i128::from(b)
}

fn quotient(a: i64, b: i64) -> i128
    requires { b ≢ pos 0 }
    ensures { result ≡ int_div a b }
{
    i128::from(a) / i128::from(b)
}

/// The least remainder of a number from `lo` on, where `most` is the greatest absolute value of one.
fn least_rem(lo: i128, most: i128) -> i128
    requires { pos 0 ≤ℤ most }
    ensures value { result ≡ least_rem most lo }
    ensures sign { result ≤ℤ pos 0 }
{
    if lo < 0 { lo.max(-most) } else { 0 }
}

/// The greatest remainder of a number up to `hi`.
fn greatest_rem(hi: i128, most: i128) -> i128
    requires { pos 0 ≤ℤ most }
    ensures value { result ≡ greatest_rem most hi }
    ensures sign { pos 0 ≤ℤ result }
{
    if hi > 0 { hi.min(most) } else { 0 }
}

/// The interval from the least to the greatest of four numbers, where it has 64 bits.
fn around(a: i128, b: i128, c: i128, d: i128) -> Option<Iv>
    ensures { (p q r s : ℤ) → a ≡ p → b ≡ q → c ≡ r → d ≡ s → result ≡ within_64 (of_four p q r s) }
{
    narrowed(a.min(b).min(c.min(d)), a.max(b).max(c.max(d)))
}

/// The interval between two bounds, where they have 64 bits.
fn narrowed(lo: i128, hi: i128) -> Option<Iv>
    requires { lo ≤ℤ hi }
    ensures { (a : Bounds) → lo ≡ a.lo → hi ≡ a.hi → result ≡ within_64 a }
{
    match (i64::try_from(lo), i64::try_from(hi)) {
        (Ok(lo), Ok(hi)) => Some(Iv { lo, hi }),
        _ => None,
    }
}

fn kept(lo: i64, hi: i64) -> Option<Iv>
    requires { lo ≤ℤ hi }
    ensures { (a : Bounds) → lo ≡ a.lo → hi ≡ a.hi → result ≡ within_64 a }
{
    Some(Iv { lo, hi })
}

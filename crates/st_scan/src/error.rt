//! Why a scan ends early.

use crate::values::ValueFault;

/// What ended a scan before its last statement: a result outside 64 bits, a divisor 0, a value outside the subrange of the
/// variable with that number, or a loop that wants one turn more than a scan has.
#[derive(Clone, Copy, Debug, PartialEq, Eq)]
pub enum ScanErr {
    Overflow,
    ZeroDivide,
    SubrangeLeft { variable: u32, value: i64 },
    Budget,
}

impl From<ValueFault> for ScanErr {
    ghost use Rattle.std.specs.Prelude.{◌≡◌};
    ghost use Rattle.st_ast.specs.Exec.{Faulted};
    ghost use Rattle.st_scan.specs.Endings.{stopped};
    ghost use Rattle.st_scan.specs.Told.{fault_of};

    ghost from_gives = { λ e s. stopped s ≡ Faulted (fault_of e) };

    fn from(fault: ValueFault) -> ScanErr {
        match fault {
            ValueFault::Overflow => ScanErr::Overflow,
            ValueFault::ZeroDivide => ScanErr::ZeroDivide,
        }
    }
}

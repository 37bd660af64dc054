//! How a run ends before the end of its script.

ghost use Rattle.std.specs.Prelude.{◌≡◌};
ghost use Rattle.cif_sim_run.specs.Halts.{halt_of};
ghost use Rattle.cif_sim_run.specs.declared.halt.Halt.TheVariants.{Memory};

use cif_io::SinkErr;

/// Why a line of a script can't be followed: a value out of the range of its input, an event without a step, or a line without
/// one of the three forms or with a name or value that denotes nothing of that sort.
#[derive(Clone, Copy, Debug, PartialEq, Eq)]
pub enum StopWhy {
    OutOfRange { value: i64 },
    NotEnabled,
    BadLine,
}

/// How a run ends before the end of its script.
#[derive(Clone, Copy, Debug, PartialEq, Eq)]
pub enum Halt {
    /// The line with this number, counted from 1, can't be followed.
    Stopped { line: u32, why: StopWhy },
    /// A write failed.
    Failed,
    /// No memory was found.
    Memory,
}

impl From<cif_base::Memory> for Halt {
    ghost from_gives = { λ _ e. e ≡ Memory };

    fn from(_error: cif_base::Memory) -> Halt {
        Halt::Memory
    }
}

impl From<SinkErr> for Halt {
    ghost from_gives = { λ s e. e ≡ halt_of s };

    fn from(error: SinkErr) -> Halt {
        match error {
            SinkErr::Failed => Halt::Failed,
            SinkErr::Memory => Halt::Memory,
        }
    }
}

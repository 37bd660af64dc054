//! Sinks of bytes, which may take a piece in parts.

ghost use Rattle.std.specs.Prelude.{◌≡◌, ℕ, ◌<◌, ◌≤◌, List, Option, length, take, IfOk, OnOk, OnErr};
ghost use Rattle.cif_io.specs.Faults.{Rose};
ghost use Rattle.cif_io.specs.Written.{grown};
ghost use Rattle.cif_io.specs.declared.sink.SinkErr.TheVariants.{Memory};

use std::alloc::AllocError;

/// Why a piece wasn't written.
#[derive(Clone, Copy, Debug, PartialEq, Eq)]
pub enum SinkErr {
    /// The device failed, or took nothing.
    Failed,
    /// No memory was found.
    Memory,
}

impl From<AllocError> for SinkErr {
    ghost from_gives = { λ _ e. e ≡ Memory };

    fn from(_error: AllocError) -> SinkErr {
        SinkErr::Memory
    }
}

/// Where bytes are written.
///
/// Its meanings: the bytes written so far, where they are told, and a count of faults, which never falls.
pub trait Sink {
    ghost written: { Self → Option (List ℕ) };

    ghost faults: { Self → ℕ };

    /// Writes the start of `piece` and answers how many bytes it took, at least one.
    ///
    /// Errors: `Failed` where the count of faults rose in this call; `Memory`. After each nothing was written by this
    /// call.
    fn write(&mut self, piece: &[u8]) -> Result<usize, SinkErr>
        requires { 0 < length piece.now }
        ensures taken { IfOk result (λ n. (0 < n) × (n ≤ length piece.now)
            × (written self.new ≡ grown (written self.old) (take n piece.now))) }
        ensures nothing { OnErr result (written self.new ≡ written self.old) }
        ensures failed { result ≡ Err SinkErr.Failed → Rose (faults self.old) (faults self.new) }
        ensures faults_stay_or_rise { faults self.old ≤ faults self.new };
}

/// Writes the whole text, piece by piece.
///
/// Errors: those of the first `write` that failed. The sink then has the part of the text that went before.
pub fn put_all<S: Sink>(sink: &mut S, text: &[u8]) -> Result<(), SinkErr>
    ensures all { OnOk result (S.written sink.new ≡ grown (S.written sink.old) text.now) }
    ensures prefix { OnErr result ((n : ℕ) × (n ≤ length text.now)
        × (S.written sink.new ≡ grown (S.written sink.old) (take n text.now))) }
    ensures failed { result ≡ Err SinkErr.Failed → Rose (S.faults sink.old) (S.faults sink.new) }
    ensures faults_stay_or_rise { S.faults sink.old ≤ S.faults sink.new }
{
    let mut at = 0;
    while at < text.len() {
        at += sink.write(&text[at..])?;
    }
    Ok(())
}

//! Sinks in memory: one that fails where it is told to, and one that never fails.

ghost use Rattle.std.specs.Prelude.{◌≡◌, ℕ, ◌<◌, ◌≤◌, ◌++◌, ◌↔◌, if◌then◌else◌, List, Some, [], length, take, min, IsTrue, IfOk, OnErr, IsErrOf};
ghost use Rattle.cif_io.specs.Faults.{Rose, raised, is_chosen};

use crate::faults::is_chosen_call;
use crate::{Sink, SinkErr};
use std::alloc::Global;
use std::marker::Model;

/// A sink that keeps what it takes, in parts, and of which chosen calls fail.
#[derive(Debug, Drop)]
pub struct MemSink {
    bytes: Vec<u8>,
    at_most: usize,
    fails: Vec<u32>,
    calls: u64,
    faults: u64,
}

impl Model for MemSink {
    ghost use Rattle.std.specs.Prelude.{◌<◌};
    ghost use Rattle.cif_io.specs.Tape.{Tape};

    ghost Value = { Tape };

    ghost view = { λ m. record {
      bytes = m.bytes.items;
      at_most = m.at_most;
      fails = m.fails.items;
      calls = m.calls;
      faults = m.faults;
    } };

    ghost invariant = { λ m. 0 < m.at_most };
}

impl MemSink {
    /// An empty sink, which takes at most `at_most` bytes a call. `fails` has the numbers, counted from 0, of the
    /// calls that fail. It takes no memory.
    pub fn new(alloc: Global, at_most: usize, fails: Vec<u32>) -> MemSink
        requires { 0 < at_most }
        ensures { result ≡ record {
          bytes = [];
          at_most = at_most;
          fails = fails.items;
          calls = 0;
          faults = 0;
        } }
    {
        MemSink {
            bytes: Vec::new(alloc),
            at_most,
            fails,
            calls: 0,
            faults: 0,
        }
    }

    /// What was written.
    pub fn as_slice(&self) -> &[u8]
        ensures { result.now ≡ self.now.bytes }
    {
        self.bytes.as_slice()
    }
}

impl Sink for MemSink {
    ghost written = { λ m. Some m.bytes };

    ghost faults = { λ m. m.faults };

    fn write(&mut self, piece: &[u8]) -> Result<usize, SinkErr>
        requires { 0 < length piece.now }
        ensures taken { IfOk result (λ n. (0 < n) × (n ≤ length piece.now)
            × (self.new.bytes ≡ self.old.bytes ++ take n piece.now)) }
        ensures nothing { OnErr result (self.new.bytes ≡ self.old.bytes) }
        ensures failed { result ≡ Err SinkErr.Failed → Rose self.old.faults self.new.faults }
        ensures faults_stay_or_rise { self.old.faults ≤ self.new.faults }
        ensures amount { IfOk result (λ n. n ≡ min self.old.at_most (length piece.now)) }
        ensures fails_exactly { IsErrOf result SinkErr.Failed
            ↔ IsTrue (is_chosen self.old.fails self.old.calls) }
        ensures count { self.new.faults ≡ (if is_chosen self.old.fails self.old.calls
            then raised self.old.faults else self.old.faults) }
        ensures state { self.new ≡ record self.old {
          bytes = self.new.bytes;
          calls = raised self.old.calls;
          faults = self.new.faults;
        } }
    {
        let call = self.calls;
        self.calls = call.saturating_add(1);
        if is_chosen_call(self.fails.as_slice(), call) {
            self.faults = self.faults.saturating_add(1);
            return Err(SinkErr::Failed);
        }
        let taken = self.at_most.min(piece.len());
        self.bytes.extend_from_slice(&piece[..taken])?;
        Ok(taken)
    }
}

/// A sink that keeps all it is given and never fails.
#[derive(Debug, Drop)]
pub struct SureSink {
    bytes: Vec<u8>,
}

impl Model for SureSink {
    ghost Value = { List ℕ };

    ghost view = { λ s. s.bytes.items };
}

impl SureSink {
    /// An empty sink. It takes no memory.
    pub fn new(alloc: Global) -> SureSink
        ensures { result ≡ [] }
    {
        SureSink {
            bytes: Vec::new(alloc),
        }
    }

    /// What was written.
    pub fn as_slice(&self) -> &[u8]
        ensures { result.now ≡ self.now }
    {
        self.bytes.as_slice()
    }
}

impl Sink for SureSink {
    ghost written = { λ s. Some s };

    ghost faults = { λ _. 0 };

    fn write(&mut self, piece: &[u8]) -> Result<usize, SinkErr>
        requires { 0 < length piece.now }
        ensures taken { IfOk result (λ n. (n ≡ length piece.now) × (self.new ≡ self.old ++ piece.now)) }
        ensures nothing { OnErr result (self.new ≡ self.old) }
        ensures sure { ¬ IsErrOf result SinkErr.Failed }
    {
        self.bytes.extend_from_slice(piece)?;
        Ok(piece.len())
    }
}

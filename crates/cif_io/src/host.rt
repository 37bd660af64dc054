//! The files, the standard output and the standard error of the process.

ghost use Rattle.std.specs.Prelude.{◌≡◌, ℕ, ◌+◌, ◌<◌, ◌≤◌, [], None, length, vec_len, max, IfOk, OnOk, IsErrOf};
ghost use Rattle.cif_io.specs.Faults.{Rose, raised};

use crate::{FileErr, Files, Sink, SinkErr};
use std::fs;
use std::io::{Print, Read, Stderr, Stdout};
use std::marker::Model;

// How many bytes are asked of a file at once.
const PIECE: usize = 8192;

/// The files of the system. What they hold isn't told; a count of failures and the most bytes that one read took are
/// those of every name.
#[derive(Drop)]
pub struct HostFiles<R> {
    rt: R,
    faults: u64,
    most: u64,
}

impl<R> Model for HostFiles<R> {
    ghost use Rattle.cif_io.specs.Taken.{Taken};

    ghost Value = { Taken };

    ghost view = { λ h. record { faults = h.faults; most = h.most } };
}

impl<R: std::rt::Files> HostFiles<R> {
    /// The files that this runtime reaches, of which none has been read yet.
    pub fn new(rt: R) -> HostFiles<R>
        ensures { result ≡ record { faults = 0; most = 0 } }
    {
        HostFiles {
            rt,
            faults: 0,
            most: 0,
        }
    }
}

impl<R: std::rt::Files> Files for HostFiles<R> {
    ghost content = { λ _ _. None };

    ghost faults = { λ h _. h.faults };

    ghost most = { λ h _. h.most };

    fn read(&mut self, name: &str, limit: u64, into: &mut Vec<u8>) -> Result<(), FileErr>
        ensures within { OnOk result (vec_len into.new ≤ limit) }
        ensures emptied { OnOk result (vec_len into.new ≤ self.new.most) }
        ensures too_big { (l : ℕ) → result ≡ Err (FileErr.TooBig l) →
            (l ≡ limit) × (vec_len into.new ≡ limit + 1) }
        ensures longer { (l : ℕ) → result ≡ Err (FileErr.TooBig l) → limit < self.new.most }
        ensures failed { result ≡ Err FileErr.Failed → Rose self.old.faults self.new.faults }
        ensures faults_stay_or_rise { self.old.faults ≤ self.new.faults }
        ensures most_stays_or_rises { self.old.most ≤ self.new.most }
        ensures failed_once { IsErrOf result FileErr.Failed → self.new.faults ≡ raised self.old.faults }
        ensures not_failed { ¬ IsErrOf result FileErr.Failed → self.new.faults ≡ self.old.faults }
        ensures most { self.new.most ≡ max self.old.most (vec_len into.new) }
    {
        into.clear();
        let outcome = take_file(&self.rt, name, limit, into);
        self.most = self.most.max(into.len() as u64);
        if let Err(FileErr::Failed) = outcome {
            self.faults = self.faults.saturating_add(1);
        }
        outcome
    }
}

/// Standard output or standard error. What was written isn't told.
#[derive(Drop)]
pub struct HostSink<P> {
    to: P,
    faults: u64,
}

impl<P> Model for HostSink<P> {
    ghost use Rattle.std.specs.Prelude.{ℕ};

    ghost Value = { ℕ };

    ghost view = { λ h. h.faults };
}

impl HostSink<Stdout> {
    /// Standard output.
    pub fn out(rt: &HostRuntime) -> HostSink<Stdout>
        ensures { result ≡ 0 }
    {
        HostSink {
            to: rt.stdout(),
            faults: 0,
        }
    }
}

impl HostSink<Stderr> {
    /// Standard error.
    pub fn err(rt: &HostRuntime) -> HostSink<Stderr>
        ensures { result ≡ 0 }
    {
        HostSink {
            to: rt.stderr(),
            faults: 0,
        }
    }
}

impl<P: Print> Sink for HostSink<P> {
    ghost written = { λ _. None };

    ghost faults = { λ h. h };

    fn write(&mut self, piece: &[u8]) -> Result<usize, SinkErr>
        requires { 0 < length piece.now }
        ensures taken { IfOk result (λ n. (0 < n) × (n ≤ length piece.now)) }
        ensures failed { result ≡ Err SinkErr.Failed → Rose self.old self.new }
        ensures faults_stay_or_rise { self.old ≤ self.new }
        ensures failed_once { IsErrOf result SinkErr.Failed → self.new ≡ raised self.old }
        ensures not_failed { ¬ IsErrOf result SinkErr.Failed → self.new ≡ self.old }
        ensures no_memory { ¬ IsErrOf result SinkErr.Memory }
    {
        match self.to.write_some(piece) {
            Ok(taken) if taken > 0 => Ok(taken),
            _ => {
                self.faults = self.faults.saturating_add(1);
                Err(SinkErr::Failed)
            }
        }
    }
}

// Reads a file into the empty `into`, up to one byte past the limit.
fn take_file<R: std::rt::Files>(
    rt: &R,
    name: &str,
    limit: u64,
    into: &mut Vec<u8>,
) -> Result<(), FileErr>
    requires { into.old.items ≡ [] }
    ensures within { OnOk result (vec_len into.new ≤ limit) }
    ensures too_big { (l : ℕ) → result ≡ Err (FileErr.TooBig l) →
        (l ≡ limit) × (vec_len into.new ≡ limit + 1) }
{
    let mut file = fs::open(rt, name).map_err(|_| FileErr::Failed)?;
    let mut piece = [0u8; PIECE];
    for _ in 0..u64::MAX {
        let room = limit - into.len() as u64;
        let ask = room.min(PIECE as u64 - 1) as usize + 1;
        let taken = file.read(&mut piece[..ask]).map_err(|_| FileErr::Failed)?;
        if taken == 0 {
            return Ok(());
        }
        into.extend_from_slice(&piece[..taken])?;
        if into.len() as u64 > limit {
            return Err(FileErr::TooBig { limit });
        }
    }
    Err(FileErr::Failed)
}

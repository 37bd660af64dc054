//! Files in memory: one that fails where it is told to, and one that never fails.

ghost use Rattle.std.specs.Prelude.{◌≡◌, ◌≢◌, ℕ, ◌+◌, ◌<◌, ◌≤◌, ◌↔◌, if◌then◌else◌, List, Option, Some, [], length, vec_len, replicate, unwrap_or, IsTrue, IsSome, IfOk, OnOk, IfSome, MatchOption, IsErrOf};
ghost use Rattle.cif_io.specs.Faults.{Rose, raised};
ghost use Rattle.cif_io.specs.Shelf.{place, content_of, faults_of, refuses};
ghost use Rattle.cif_io.specs.declared.memory_files.MemFile.{MemFile};

use crate::faults::is_chosen_call;
use crate::{FileErr, Files};
use cif_base::{Memory, Text};
use std::alloc::Global;
use std::marker::Model;

/// A file in memory.
#[derive(Debug, Drop)]
pub struct MemFile {
    pub name: Text,
    pub bytes: Text,
}

/// Files in memory, of which chosen reads fail.
///
/// The first entry of a name counts. A read fails where its number, counted from 0 over all reads, is one of those
/// given, or where its name isn't held. Each held name has a count of its failures, and the count of any other name is
/// the number of reads so far.
#[derive(Debug, Drop)]
pub struct MemFiles {
    files: Vec<MemFile>,
    faults: Vec<u64>,
    fails: Vec<u32>,
    calls: u64,
}

impl Model for MemFiles {
    ghost use Rattle.std.specs.Prelude.{◌≡◌, vec_len};
    ghost use Rattle.cif_io.specs.Shelf.{Shelf};

    ghost Value = { Shelf };

    ghost view = { λ m. record {
      files = m.files.items;
      counts = m.faults.items;
      fails = m.fails.items;
      calls = m.calls;
    } };

    ghost invariant = { λ m. vec_len m.faults ≡ vec_len m.files };
}

impl MemFiles {
    /// These files, of which no read has failed yet. `fails` has the numbers of the reads that will.
    pub fn new(alloc: Global, files: Vec<MemFile>, fails: Vec<u32>) -> Result<MemFiles, Memory>
        ensures start { IfOk result (λ m. m ≡ record {
          files = files.items;
          counts = replicate (length files.items) 0;
          fails = fails.items;
          calls = 0;
        }) }
        ensures no_faults { IfOk result (λ m. (n : List ℕ) → faults_of m n ≡ 0) }
    {
        let faults = vec![in alloc; 0; files.len()]?;
        Ok(MemFiles {
            files,
            faults,
            fails,
            calls: 0,
        })
    }
}

impl Files for MemFiles {
    ghost content = { λ m n. content_of m.files n };

    ghost faults = { faults_of };

    ghost most = { λ _ _. 0 };

    fn read(&mut self, name: &str, limit: u64, into: &mut Vec<u8>) -> Result<(), FileErr>
        ensures faults_stay_or_rise { (n : List ℕ) → faults_of self.old n ≤ faults_of self.new n }
        ensures whole { OnOk result
            (IfSome (content_of self.old.files name.now) (λ b. into.new.items ≡ b)) }
        ensures within { OnOk result (vec_len into.new ≤ limit) }
        ensures emptied { OnOk result (MatchOption (content_of self.old.files name.now)
            (vec_len into.new ≤ 0) (λ b. Unit {0})) }
        ensures failed { result ≡ Err FileErr.Failed →
            Rose (faults_of self.old name.now) (faults_of self.new name.now) }
        ensures too_big { (l : ℕ) → result ≡ Err (FileErr.TooBig l) →
            (l ≡ limit) × (vec_len into.new ≡ limit + 1) }
        ensures longer { (l : ℕ) → result ≡ Err (FileErr.TooBig l) →
            MatchOption (content_of self.old.files name.now) (limit < 0) (λ b. limit < length b) }
        ensures fails_exactly { IsErrOf result FileErr.Failed ↔ IsTrue (refuses self.old name.now) }
        ensures state { self.new ≡ record self.old {
          counts = self.new.counts;
          calls = raised self.old.calls;
        } }
        ensures own_count { IsSome (place self.old.files name.now) → faults_of self.new name.now ≡
            (if refuses self.old name.now
            then raised (faults_of self.old name.now) else faults_of self.old name.now) }
        ensures other_counts { (n : List ℕ) → n ≢ name.now → IsSome (place self.old.files n)
            → faults_of self.new n ≡ faults_of self.old n }
    {
        let call = self.calls;
        self.calls = call.saturating_add(1);
        let is_chosen = is_chosen_call(self.fails.as_slice(), call);
        match place_of(self.files.as_slice(), name) {
            None => Err(FileErr::Failed),
            Some(at) if is_chosen => {
                self.faults[at] = self.faults[at].saturating_add(1);
                Err(FileErr::Failed)
            }
            Some(at) => copy_within(self.files[at].bytes.as_slice(), limit, into),
        }
    }
}

/// Files in memory that never fail: a name that isn't held is an empty file.
#[derive(Debug, Drop)]
pub struct SureFiles {
    files: Vec<MemFile>,
}

impl Model for SureFiles {
    ghost use Rattle.std.specs.Prelude.{List};
    ghost use Rattle.cif_io.specs.declared.memory_files.MemFile.{MemFile};

    ghost Value = { List MemFile };

    ghost view = { λ m. m.files.items };
}

impl SureFiles {
    pub fn new(files: Vec<MemFile>) -> SureFiles
        ensures { result ≡ files.items }
    {
        SureFiles { files }
    }
}

impl Files for SureFiles {
    ghost content = { λ m n. Some (unwrap_or (content_of m n) []) };

    ghost faults = { λ _ _. 0 };

    ghost most = { λ _ _. 0 };

    fn read(&mut self, name: &str, limit: u64, into: &mut Vec<u8>) -> Result<(), FileErr>
        ensures unchanged { self.new ≡ self.old }
        ensures whole { OnOk result (into.new.items ≡ unwrap_or (content_of self.old name.now) []) }
        ensures within { OnOk result (vec_len into.new ≤ limit) }
        ensures sure { ¬ IsErrOf result FileErr.Failed }
        ensures too_big { (l : ℕ) → result ≡ Err (FileErr.TooBig l) →
            (l ≡ limit) × (vec_len into.new ≡ limit + 1) }
        ensures longer { (l : ℕ) → result ≡ Err (FileErr.TooBig l) →
            limit < length (unwrap_or (content_of self.old name.now) []) }
    {
        match place_of(self.files.as_slice(), name) {
            None => copy_within(&[], limit, into),
            Some(at) => copy_within(self.files[at].bytes.as_slice(), limit, into),
        }
    }
}

// The place of the first file of this name.
fn place_of(files: &[MemFile], name: &str) -> Option<usize>
    ensures found { result ≡ place files.now name.now }
    ensures within { IfSome result (λ at. at < length files.now) }
{
    files
        .iter()
        .position(|f| f.name.as_slice() == name.as_bytes())
}

// Puts the bytes in the place of what `into` holds, or the first `limit` + 1 of them where they are more than `limit`.
fn copy_within(bytes: &[u8], limit: u64, into: &mut Vec<u8>) -> Result<(), FileErr>
    ensures whole { OnOk result (into.new.items ≡ bytes.now) }
    ensures within { OnOk result (length bytes.now ≤ limit) }
    ensures not_failed { ¬ IsErrOf result FileErr.Failed }
    ensures too_big { (l : ℕ) → result ≡ Err (FileErr.TooBig l) →
        (l ≡ limit) × (vec_len into.new ≡ limit + 1) }
    ensures longer { (l : ℕ) → result ≡ Err (FileErr.TooBig l) → limit < length bytes.now }
{
    into.clear();
    if bytes.len() as u64 <= limit {
        into.extend_from_slice(bytes)?;
        return Ok(());
    }
    into.extend_from_slice(&bytes[..limit as usize + 1])?;
    Err(FileErr::TooBig { limit })
}

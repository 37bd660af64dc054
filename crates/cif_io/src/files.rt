//! Files that are read whole, up to a limit of bytes.

ghost use Rattle.std.specs.Prelude.{◌≡◌, ℕ, ◌+◌, ◌<◌, ◌≤◌, List, Option, length, vec_len, OnOk, IfSome, MatchOption};
ghost use Rattle.cif_io.specs.Faults.{Rose};
ghost use Rattle.cif_io.specs.declared.files.FileErr.TheVariants.{Memory};

use std::alloc::AllocError;

/// Why a file wasn't read.
#[derive(Clone, Copy, Debug, PartialEq, Eq)]
pub enum FileErr {
    /// The file isn't there, or a read of it failed.
    Failed,
    /// The file is longer than `limit` bytes.
    TooBig { limit: u64 },
    /// No memory was found.
    Memory,
}

impl From<AllocError> for FileErr {
    ghost from_gives = { λ _ e. e ≡ Memory };

    fn from(_error: AllocError) -> FileErr {
        FileErr::Memory
    }
}

/// Files by their names.
///
/// Its meanings: what each name holds, where that is told; for each name a count of faults; and for each name the
/// most bytes that one read of it took so far, where its content isn't told. No count ever falls.
pub trait Files {
    ghost content: { Self → List ℕ → Option (List ℕ) };

    ghost faults: { Self → List ℕ → ℕ };

    ghost most: { Self → List ℕ → ℕ };

    /// Empties `into` and reads the whole file into it, if it has at most `limit` bytes. So where the content isn't told,
    /// `into` has no more bytes than a read of the file took.
    ///
    /// Errors: `Failed` where the count of faults of `name` rose in this call; `TooBig` where the file is longer than
    /// `limit`, and then `into` has `limit` + 1 bytes; `Memory`. What `into` holds after the other errors is open.
    fn read(&mut self, name: &str, limit: u64, into: &mut Vec<u8>) -> Result<(), FileErr>
        ensures kept { (n : List ℕ) → content self.new n ≡ content self.old n }
        ensures faults_stay_or_rise { (n : List ℕ) → faults self.old n ≤ faults self.new n }
        ensures most_stays_or_rises { (n : List ℕ) → most self.old n ≤ most self.new n }
        ensures whole { OnOk result (IfSome (content self.old name.now) (λ b. into.new.items ≡ b)) }
        ensures within { OnOk result (vec_len into.new ≤ limit) }
        ensures emptied { OnOk result (MatchOption (content self.old name.now)
            (vec_len into.new ≤ most self.new name.now) (λ b. Unit {0})) }
        ensures failed { result ≡ Err FileErr.Failed →
            Rose (faults self.old name.now) (faults self.new name.now) }
        ensures too_big { (l : ℕ) → result ≡ Err (FileErr.TooBig l) →
            (l ≡ limit) × (vec_len into.new ≡ limit + 1) }
        ensures longer { (l : ℕ) → result ≡ Err (FileErr.TooBig l) →
            MatchOption (content self.old name.now)
            (limit < most self.new name.now) (λ b. limit < length b) };
}

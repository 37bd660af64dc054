//! How a command ends.

ghost use Rattle.std.specs.Prelude.{◌≡◌, []};

use crate::status::Status;
use cif_base::Text;
use std::alloc::Global;

/// The status, the name of the variable or the path of the event that it tells of, and the most bytes that a file may have that is
/// too long. Of a status that tells of neither the name is empty, and of one that tells of no such file the limit is 0.
#[derive(Debug, Drop)]
pub struct Ended {
    pub status: Status,
    pub variable: Text,
    pub limit: u32,
}

impl Ended {
    /// An end that tells of no variable and no limit. It takes no memory.
    pub fn plain(alloc: Global, status: Status) -> Ended
        ensures { result ≡ record { status = status; variable = []; limit = 0 } }
    {
        Ended {
            status,
            variable: Text::new(alloc),
            limit: 0,
        }
    }
}

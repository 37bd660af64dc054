//! The request of `why`.

/// The request of `why`: the files of the source and of the script, and the path of an event.
#[derive(Drop)]
pub struct Why<'a> {
    pub file: &'a str,
    pub script: &'a str,
    pub event: &'a str,
}

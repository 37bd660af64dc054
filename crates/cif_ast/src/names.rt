//! Identifiers and the names made of them.

use cif_base::{Items, Text};

/// An identifier: its text, without the `$` that may stand before it in the source, and the byte where it begins,
/// that of the `$` where there is one.
#[derive(Debug, Drop)]
pub struct Ident {
    pub text: Text,
    pub at: u32,
}

/// Identifiers with dots between them, and the byte where they begin. A name that begins with a dot is looked up from
/// the specification (CIF 3 language reference, "Scoping").
#[derive(Debug, Drop)]
pub struct Name {
    pub from_root: bool,
    pub parts: Items<Ident>,
    pub at: u32,
}

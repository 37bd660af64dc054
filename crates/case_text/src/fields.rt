//! The fields of a case, which stand between bars.

use crate::fault::Fault;
use crate::texts::{Names, bytes_of};
use std::alloc::Global;

/// The fields of a case, and the names that its texts may use.
#[derive(Drop)]
pub struct Fields<'a> {
    pub alloc: Global,
    names: &'a Names,
    all: Vec<&'a str>,
}

/// The first word, and what comes behind it.
pub fn first_word(text: &str) -> (&str, &str) {
    match text.split_once(' ') {
        Some((word, rest)) => (word, rest.trim()),
        None => (text, ""),
    }
}

/// A number of 32 bits.
pub fn number(word: &str) -> Result<u32, Fault> {
    match word.parse::<u32>() {
        Ok(value) => Ok(value),
        Err(_) => Err(Fault::Form("no number, or one that is too great")),
    }
}

/// A whole number of 64 bits.
fn whole(word: &str) -> Result<i64, Fault> {
    match word.parse::<i64>() {
        Ok(value) => Ok(value),
        Err(_) => Err(Fault::Form("no whole number, or one that is too great")),
    }
}

impl<'a> Fields<'a> {
    /// The fields of what stands behind the name of a call.
    pub fn new(alloc: Global, names: &'a Names, text: &'a str) -> Result<Fields<'a>, Fault> {
        let mut all = Vec::new(alloc);
        for field in text.split('|') {
            all.push(field.trim())?;
        }
        Ok(Fields { alloc, names, all })
    }

    /// A field as it is written; empty where there is none.
    pub fn written(&self, at: usize) -> &'a str {
        match self.all.get(at) {
            Some(field) => field,
            None => "",
        }
    }

    /// All fields, as they are written.
    pub fn all(&self) -> &[&'a str] {
        self.all.as_slice()
    }

    /// The fields behind the first, as they are written.
    pub fn others(&self) -> &[&'a str] {
        match self.all.as_slice() {
            [] => &[],
            [_, others @ ..] => others,
        }
    }

    /// What a text of the notation stands for.
    pub fn bytes_of(&self, text: &str) -> Result<Vec<u8>, Fault> {
        bytes_of(self.alloc, self.names, text.as_bytes())
    }

    /// What the first field stands for.
    pub fn text(&self) -> Result<Vec<u8>, Fault> {
        self.bytes_of(self.written(0))
    }

    /// The numbers of a field, which is a text of the notation, with blanks between them.
    pub fn numbers(&self, text: &str) -> Result<Vec<u32>, Fault> {
        let mut all = Vec::new(self.alloc);
        let bytes = self.bytes_of(text)?;
        let Ok(text) = str::from_utf8(bytes.as_slice()) else {
            return Err(Fault::Form("numbers are no UTF-8"));
        };
        for word in text.split_whitespace() {
            all.push(number(word)?)?;
        }
        Ok(all)
    }

    /// The whole numbers of a field, with blanks between them; none where it is `-`.
    pub fn wholes(&self, text: &str) -> Result<Vec<i64>, Fault> {
        let mut all = Vec::new(self.alloc);
        if text == "-" {
            return Ok(all);
        }
        for word in text.split_whitespace() {
            all.push(whole(word)?)?;
        }
        Ok(all)
    }
}

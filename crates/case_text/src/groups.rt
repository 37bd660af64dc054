//! Numbers in a row whose cases have the same answer, which is printed once.

use crate::page::Put;

/// How the numbers of a group are printed: as bytes in hexadecimal, or in decimal.
#[derive(Clone, Copy)]
pub(crate) enum Style {
    Byte,
    Count,
}

/// The numbers from one to another, which have the same answer.
#[derive(Drop)]
pub(crate) struct Group {
    style: Style,
    first: usize,
    last: usize,
    answer: String,
}

impl Group {
    /// The group that begins at 0.
    pub(crate) fn new(style: Style, answer: String) -> Group {
        Group {
            style,
            first: 0,
            last: 0,
            answer,
        }
    }

    /// Whether this is the answer.
    pub(crate) fn has(&self, answer: &str) -> bool {
        self.answer.as_str() == answer
    }

    /// Goes on to the next number; where its answer is another, the group is printed and a new one begins.
    pub(crate) fn add(&mut self, number: usize, answer: String, page: &mut String) -> Put {
        if !self.has(answer.as_str()) {
            self.put(page)?;
            self.first = number;
            self.answer = answer;
        }
        self.last = number;
        Ok(())
    }

    pub(crate) fn put(&self, page: &mut String) -> Put {
        page.push_str("  ")?;
        put_number(page, self.style, self.first)?;
        if self.first != self.last {
            page.push_str(" to ")?;
            put_number(page, self.style, self.last)?;
        }
        page.push('\n')?;
        page.push_str(self.answer.as_str())
    }
}

fn put_number(page: &mut String, style: Style, number: usize) -> Put {
    match style {
        Style::Byte => write!(page, "{number:02x}"),
        Style::Count => write!(page, "{number}"),
    }
}

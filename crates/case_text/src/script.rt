//! The lines of the cases, one after the other.

ghost use Rattle.std.specs.Prelude.{◌≤◌, length};

use crate::fault::Fault;
use crate::fields::{Fields, first_word};
use crate::groups::{Group, Style};
use crate::texts::{Names, bytes_of};
use std::alloc::{AllocError, Global};

/// The greatest number that `times` tries.
const MOST_TIMES: usize = 10_000;

/// What the lines so far leave: the names that they define, and how many calls they made.
#[derive(Drop)]
pub struct Script {
    alloc: Global,
    names: Names,
    calls: u64,
}

impl Script {
    pub fn new(alloc: Global) -> Script {
        Script {
            alloc,
            names: Names::new(alloc),
            calls: 0,
        }
    }

    pub fn calls(&self) -> u64 {
        self.calls
    }

    /// What is printed for a line: itself, and the answer where it is a case.
    pub fn line<E: Into<Fault>, A: Fn(&str, &Fields<'_>, &mut String) -> Result<(), E>>(
        &mut self,
        answer: &A,
        line: &str,
    ) -> Result<String, Fault>
        requires { A.IsAlwaysCallable answer.now }
    {
        let mut page = String::from_str(self.alloc, line)?;
        self.put_answer(answer, line, &mut page)?;
        Ok(page)
    }

    /// The end of a line, and the answer where it is a case.
    fn put_answer<E: Into<Fault>, A: Fn(&str, &Fields<'_>, &mut String) -> Result<(), E>>(
        &mut self,
        answer: &A,
        line: &str,
        page: &mut String,
    ) -> Result<(), Fault>
        requires { A.IsAlwaysCallable answer.now }
    {
        page.push('\n')?;
        let (word, rest) = first_word(line);
        match word {
            "" | "#" => Ok(()),
            "let" => self.define(rest),
            "each" => self.each_byte(answer, rest, page),
            "times" => self.times(answer, rest, page),
            "prefixes" => self.prefixes(answer, rest, page),
            _ => self.call(answer, line, page),
        }
    }

    /// `NAME TEXT`
    fn define(&mut self, text: &str) -> Result<(), Fault> {
        let (name, text) = first_word(text);
        let bytes = bytes_of(self.alloc, &self.names, text.as_bytes())?;
        self.names.define(self.alloc, name, bytes)
    }

    /// `CALL FIELD | FIELD ..`
    fn call<E: Into<Fault>, A: Fn(&str, &Fields<'_>, &mut String) -> Result<(), E>>(
        &mut self,
        answer: &A,
        text: &str,
        page: &mut String,
    ) -> Result<(), Fault>
        requires { A.IsAlwaysCallable answer.now }
    {
        let (word, rest) = first_word(text);
        self.calls = self.calls.saturating_add(1);
        let fields = Fields::new(self.alloc, &self.names, rest)?;
        match answer(word, &fields, page) {
            Ok(()) => Ok(()),
            Err(error) => Err(error.into()),
        }
    }

    /// The answer to a case where this name stands for these bytes.
    fn with<E: Into<Fault>, A: Fn(&str, &Fields<'_>, &mut String) -> Result<(), E>>(
        &mut self,
        answer: &A,
        text: &str,
        name: &str,
        bytes: Vec<u8>,
    ) -> Result<String, Fault>
        requires { A.IsAlwaysCallable answer.now }
    {
        self.names.define(self.alloc, name, bytes)?;
        let mut page = String::new(self.alloc);
        self.call(answer, text, &mut page)?;
        self.names.forget();
        Ok(page)
    }

    /// The answer to a case where `{byte}` is this byte.
    fn with_byte<E: Into<Fault>, A: Fn(&str, &Fields<'_>, &mut String) -> Result<(), E>>(
        &mut self,
        answer: &A,
        text: &str,
        byte: u8,
    ) -> Result<String, Fault>
        requires { A.IsAlwaysCallable answer.now }
    {
        let bytes = Vec::from_slice(self.alloc, &[byte])?;
        self.with(answer, text, "byte", bytes)
    }

    /// A case for each of the 256 bytes, with one answer for each run of bytes that have the same.
    fn each_byte<E: Into<Fault>, A: Fn(&str, &Fields<'_>, &mut String) -> Result<(), E>>(
        &mut self,
        answer: &A,
        text: &str,
        page: &mut String,
    ) -> Result<(), Fault>
        requires { A.IsAlwaysCallable answer.now }
    {
        let first = self.with_byte(answer, text, 0)?;
        let mut group = Group::new(Style::Byte, first);
        for byte in 1..=255 {
            let next = self.with_byte(answer, text, byte)?;
            group.add(usize::from(byte), next, page)?;
        }
        Ok(group.put(page)?)
    }

    /// The answer to a case where `{n}` is this number.
    fn with_number<E: Into<Fault>, A: Fn(&str, &Fields<'_>, &mut String) -> Result<(), E>>(
        &mut self,
        answer: &A,
        text: &str,
        number: usize,
    ) -> Result<String, Fault>
        requires { A.IsAlwaysCallable answer.now }
    {
        let written = format!(in self.alloc; "{number}")?;
        let bytes = Vec::from_slice(self.alloc, written.as_bytes())?;
        self.with(answer, text, "n", bytes)
    }

    /// A case for each number from 0 on, up to the first whose answer is the one that there is without a number. All are one case.
    fn times<E: Into<Fault>, A: Fn(&str, &Fields<'_>, &mut String) -> Result<(), E>>(
        &mut self,
        answer: &A,
        text: &str,
        page: &mut String,
    ) -> Result<(), Fault>
        requires { A.IsAlwaysCallable answer.now }
    {
        let calls = self.calls.saturating_add(1);
        let without = self.with(answer, text, "n", Vec::new(self.alloc))?;
        let first = self.with_number(answer, text, 0)?;
        let mut group = Group::new(Style::Count, first);
        for number in 1..=MOST_TIMES {
            if group.has(without.as_str()) {
                self.calls = calls;
                return Ok(group.put(page)?);
            }
            let next = self.with_number(answer, text, number)?;
            group.add(number, next, page)?;
        }
        Err(Fault::Form("no number has the answer without one"))
    }

    /// The exit code of a case where `{prefix}` is the beginning of a text with this length.
    fn with_prefix<E: Into<Fault>, A: Fn(&str, &Fields<'_>, &mut String) -> Result<(), E>>(
        &mut self,
        answer: &A,
        text: &str,
        whole: &[u8],
        count: usize,
    ) -> Result<String, Fault>
        requires always { A.IsAlwaysCallable answer.now }
        requires inside { count ≤ length whole.now }
    {
        let bytes = Vec::from_slice(self.alloc, &whole[..count])?;
        let page = self.with(answer, text, "prefix", bytes)?;
        Ok(code_of(self.alloc, page.as_str())?)
    }

    /// `TEXT CALL ..`: a case for each beginning of the text, of which the exit code alone is printed. All are one case.
    fn prefixes<E: Into<Fault>, A: Fn(&str, &Fields<'_>, &mut String) -> Result<(), E>>(
        &mut self,
        answer: &A,
        text: &str,
        page: &mut String,
    ) -> Result<(), Fault>
        requires { A.IsAlwaysCallable answer.now }
    {
        let calls = self.calls.saturating_add(1);
        let (written, text) = first_word(text);
        let whole = bytes_of(self.alloc, &self.names, written.as_bytes())?;
        let first = self.with_prefix(answer, text, whole.as_slice(), 0)?;
        let mut group = Group::new(Style::Count, first);
        for count in 1..=whole.len() {
            let next = self.with_prefix(answer, text, whole.as_slice(), count)?;
            group.add(count, next, page)?;
        }
        self.calls = calls;
        Ok(group.put(page)?)
    }
}

/// What stands behind the last comma of the first line of an answer: the exit code of a command line.
fn code_of(alloc: Global, answer: &str) -> Result<String, AllocError> {
    let line = match answer.split_once('\n') {
        Some((line, _)) => line,
        None => answer,
    };
    match line.rsplit_once(',') {
        Some((_, code)) => format!(in alloc; " {code}\n"),
        None => format!(in alloc; "{line}\n"),
    }
}

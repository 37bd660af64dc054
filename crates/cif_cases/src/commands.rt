//! Cases of the top call, over files and sinks in memory.

use case_text::{Fault, Fields, Put, file, first_word, number, put_lines};
use cif_io::{MemFile, MemFiles, MemSink};
use cif_tool::{NoGate, Status, code, tool};
use std::alloc::Global;
use std::thread::Threads;

/// Files and sinks as a case asks for them: which reads fail, which writes of `out` fail and how many bytes one takes, and which
/// writes of standard error fail.
#[derive(Drop)]
struct Asked {
    files: Vec<MemFile>,
    reads: Vec<u32>,
    writes: Vec<u32>,
    takes: usize,
    tells: Vec<u32>,
}

impl Asked {
    fn new(alloc: Global) -> Asked {
        Asked {
            files: Vec::new(alloc),
            reads: Vec::new(alloc),
            writes: Vec::new(alloc),
            takes: 16,
            tells: Vec::new(alloc),
        }
    }

    /// What one field asks for.
    fn add(&mut self, fields: &Fields<'_>, field: &str) -> Result<(), Fault> {
        let (what, rest) = first_word(field);
        match what {
            "file" => self.files.push(file(fields, rest)?)?,
            "reads" => self.reads = fields.numbers(rest)?,
            "writes" => self.writes = fields.numbers(rest)?,
            "takes" => self.takes = number(rest)? as usize,
            "tells" => self.tells = fields.numbers(rest)?,
            _ => return Err(Fault::Form("no `file`, `reads`, `writes`, `takes` or `tells`")),
        }
        Ok(())
    }
}

/// The word of a command line that a text of the notation stands for.
fn word(fields: &Fields<'_>, word: &str) -> Result<String, Fault> {
    let bytes = fields.bytes_of(word)?;
    match str::from_utf8(bytes.as_slice()) {
        Ok(word) => Ok(String::from_str(fields.alloc, word)?),
        Err(_) => Err(Fault::Form("a word is no UTF-8")),
    }
}

/// The words of a command line.
fn words(fields: &Fields<'_>) -> Result<Vec<String>, Fault> {
    let mut all = Vec::new(fields.alloc);
    for text in fields.written(0).split_whitespace() {
        all.push(word(fields, text)?)?;
    }
    Ok(all)
}

/// What the fields behind the first ask for.
fn all_asked(fields: &Fields<'_>) -> Result<Asked, Fault> {
    let mut asked = Asked::new(fields.alloc);
    for field in fields.others() {
        asked.add(fields, field)?;
    }
    Ok(asked)
}

/// How a call ends: its status, and what the output and standard error hold.
fn put_ended(page: &mut String, status: Status, out: &[u8], err: &[u8]) -> Put {
    let code = code(&status);
    writeln!(page, "  {status:?}, code {code}")?;
    put_lines(page, "out", out)?;
    put_lines(page, "err", err)
}

/// Makes the call over these files, with this output and this standard error.
fn put_run<R: Threads + Sync>(
    rt: &R,
    alloc: Global,
    page: &mut String,
    words: &[String],
    files: &mut MemFiles,
    out: &mut MemSink,
    err: &mut MemSink,
) -> Put {
    let status = tool(rt, alloc, words, files, out, err, &NoGate);
    put_ended(page, status, out.as_slice(), err.as_slice())
}

/// Makes the call over the files and sinks that are asked for.
fn put_tool<R: Threads + Sync>(
    rt: &R,
    alloc: Global,
    page: &mut String,
    words: &[String],
    asked: Asked,
) -> Result<(), Fault> {
    let Asked {
        files,
        reads,
        writes,
        takes,
        tells,
    } = asked;
    let mut out = MemSink::new(alloc, takes.max(1), writes);
    let mut err = MemSink::new(alloc, 7, tells);
    let mut files = MemFiles::new(alloc, files, reads)?;
    Ok(put_run(rt, alloc, page, words, &mut files, &mut out, &mut err)?)
}

/// `tool WORD.. | file NAME TEXT | reads N.. | writes N.. | takes N | tells N..`
pub fn tool_case<R: Threads + Sync>(
    rt: &R,
    fields: &Fields<'_>,
    page: &mut String,
) -> Result<(), Fault> {
    let words = words(fields)?;
    let asked = all_asked(fields)?;
    put_tool(rt, fields.alloc, page, words.as_slice(), asked)
}

//! The notation of texts: bytes with escapes, definitions, repetitions and counting.

ghost use Rattle.std.specs.Prelude.{◌<◌, IfSome};

use crate::fault::Fault;
use cif_base::put_int;
use std::alloc::Global;

/// The most bytes of one text.
const MOST_BYTES: usize = 70_000_000;

/// A name and the bytes that it stands for.
#[derive(Drop)]
struct Definition {
    name: String,
    bytes: Vec<u8>,
}

/// The names that are defined; of several definitions of a name the last counts.
#[derive(Drop)]
pub struct Names {
    all: Vec<Definition>,
}

impl Names {
    pub fn new(alloc: Global) -> Names {
        Names {
            all: Vec::new(alloc),
        }
    }

    pub fn define(&mut self, alloc: Global, name: &str, bytes: Vec<u8>) -> Result<(), Fault> {
        let name = String::from_str(alloc, name)?;
        self.all.push(Definition { name, bytes })?;
        Ok(())
    }

    /// Forgets the last definition.
    pub fn forget(&mut self) {
        let _ = self.all.pop();
    }

    fn find(&self, name: &[u8]) -> Option<&[u8]> {
        let mut found = None;
        for definition in self.all.as_slice() {
            if definition.name.as_bytes() == name {
                found = Some(definition.bytes.as_slice());
            }
        }
        found
    }
}

/// What a brace asks of the text up to its closing brace, of which the text begins at the byte `from` of the result.
#[derive(Clone, Copy)]
enum Asked {
    /// `{N*TEXT}`: the text N times.
    Times { count: u32, from: usize },
    /// `{N..M:TEXT}`: each number from N to M, and the text behind it.
    Numbers { first: u32, last: u32, from: usize },
}

/// A text of which a part is written.
#[derive(Drop)]
struct Writer {
    bytes: Vec<u8>,
    open: Vec<Asked>,
}

impl Writer {
    fn put(&mut self, bytes: &[u8]) -> Result<(), Fault> {
        if self.bytes.len().saturating_add(bytes.len()) > MOST_BYTES {
            return Err(Fault::Form("the text is too long"));
        }
        self.bytes.extend_from_slice(bytes)?;
        Ok(())
    }

    /// The part from a byte on, which is taken away.
    fn part(&mut self, alloc: Global, from: usize) -> Result<Vec<u8>, Fault> {
        let Some(part) = self.bytes.get(from..) else {
            return Err(Fault::Form("a brace has no beginning"));
        };
        let part = Vec::from_slice(alloc, part)?;
        self.bytes.truncate(from);
        Ok(part)
    }

    /// A number, and a part behind it.
    fn number(&mut self, alloc: Global, number: u32, part: &[u8]) -> Result<(), Fault> {
        let mut digits = Vec::new(alloc);
        put_int(&mut digits, i64::from(number))?;
        self.put(digits.as_slice())?;
        self.put(part)
    }

    fn numbers(&mut self, alloc: Global, first: u32, last: u32, part: &[u8]) -> Result<(), Fault> {
        for number in first..=last {
            self.number(alloc, number, part)?;
        }
        Ok(())
    }

    /// So many copies of a part.
    fn times(&mut self, alloc: Global, count: u32, part: Vec<u8>) -> Result<(), Fault> {
        let mut chunk = part;
        let mut left = count;
        for _ in 0..32 {
            if left % 2 == 1 {
                self.put(chunk.as_slice())?;
            }
            left /= 2;
            if left == 0 {
                break;
            }
            chunk = doubled(alloc, chunk.as_slice())?;
        }
        Ok(())
    }

    /// Does what a brace asked.
    fn repeat(&mut self, alloc: Global, asked: Asked) -> Result<(), Fault> {
        match asked {
            Asked::Times { count, from } => {
                let part = self.part(alloc, from)?;
                self.times(alloc, count, part)
            }
            Asked::Numbers { first, last, from } => {
                let part = self.part(alloc, from)?;
                self.numbers(alloc, first, last, part.as_slice())
            }
        }
    }

    /// Does what the last open brace asks. The answer is what comes next.
    fn close<'a>(&mut self, alloc: Global, rest: &'a [u8]) -> Result<&'a [u8], Fault> {
        match self.open.pop() {
            None => Err(Fault::Form("a brace closes nothing")),
            Some(asked) => {
                self.repeat(alloc, asked)?;
                Ok(rest)
            }
        }
    }

    /// Takes what stands behind an opening brace, up to the text in it. The answer is what comes next.
    fn open<'a>(&mut self, names: &Names, text: &'a [u8]) -> Result<&'a [u8], Fault> {
        let from = self.bytes.len();
        let (count, rest) = number(text);
        match (count, rest) {
            (Some(count), [b'*', rest @ ..]) => {
                self.open.push(Asked::Times { count, from })?;
                Ok(rest)
            }
            (Some(first), [b'.', b'.', rest @ ..]) => {
                let (Some(last), [b':', rest @ ..]) = number(rest) else {
                    return Err(Fault::Form("no number and `:` after `..`"));
                };
                self.open.push(Asked::Numbers { first, last, from })?;
                Ok(rest)
            }
            _ => self.named(names, text),
        }
    }

    /// A definition, `NAME}`.
    fn named<'a>(&mut self, names: &Names, text: &'a [u8]) -> Result<&'a [u8], Fault> {
        let (name, rest) = until_brace(text);
        let Some(bytes) = names.find(name) else {
            return Err(Fault::Form("no such definition"));
        };
        self.put(bytes)?;
        Ok(rest)
    }

    /// A byte that two hexadecimal digits stand for.
    fn hexadecimal(&mut self, high: u8, low: u8) -> Result<(), Fault> {
        let (Some(high), Some(low)) = (digit(high), digit(low)) else {
            return Err(Fault::Form("`\\x` wants two hexadecimal digits"));
        };
        self.put(&[high * 16 + low])
    }

    /// What stands behind a backslash.
    fn escape<'a>(&mut self, text: &'a [u8]) -> Result<&'a [u8], Fault> {
        match text {
            [b'x', high, low, rest @ ..] => {
                self.hexadecimal(*high, *low)?;
                Ok(rest)
            }
            [b'e', rest @ ..] => Ok(rest),
            [byte, rest @ ..] => self.escaped(meant(*byte), rest),
            [] => Err(Fault::Form("nothing after `\\`")),
        }
    }

    fn escaped<'a>(&mut self, byte: u8, rest: &'a [u8]) -> Result<&'a [u8], Fault> {
        self.put(&[byte])?;
        Ok(rest)
    }

    /// Takes what stands at the front, and answers what comes behind it.
    fn step<'a>(
        &mut self,
        alloc: Global,
        names: &Names,
        text: &'a [u8],
    ) -> Result<&'a [u8], Fault> {
        match text {
            [] => Ok(text),
            [b'\\', rest @ ..] => self.escape(rest),
            [b'{', rest @ ..] => self.open(names, rest),
            [b'}', rest @ ..] => self.close(alloc, rest),
            [byte, rest @ ..] => self.escaped(*byte, rest),
        }
    }

    fn run(&mut self, alloc: Global, names: &Names, text: &[u8]) -> Result<(), Fault> {
        let mut rest = text;
        for _ in 0..text.len() {
            rest = self.step(alloc, names, rest)?;
        }
        if self.open.is_empty() {
            Ok(())
        } else {
            Err(Fault::Form("a brace is not closed"))
        }
    }
}

/// A text twice.
fn doubled(alloc: Global, part: &[u8]) -> Result<Vec<u8>, Fault> {
    if part.len() > MOST_BYTES {
        return Err(Fault::Form("the text is too long"));
    }
    let mut both = Vec::from_slice(alloc, part)?;
    both.extend_from_slice(part)?;
    Ok(both)
}

/// The byte that a letter behind a backslash stands for, and any other byte itself.
fn meant(byte: u8) -> u8 {
    match byte {
        b'n' => b'\n',
        b'r' => b'\r',
        b't' => b'\t',
        _ => byte,
    }
}

/// A hexadecimal digit.
fn digit(byte: u8) -> Option<u8>
    ensures { IfSome result (λ d. d < 16) }
{
    match byte {
        b'0'..=b'9' => Some(byte - b'0'),
        b'a'..=b'f' => Some(byte - b'a' + 10),
        _ => None,
    }
}

/// The decimal number at the front, and what comes behind it.
fn number(text: &[u8]) -> (Option<u32>, &[u8]) {
    let mut value = None;
    let mut rest = text;
    for _ in 0..text.len() {
        match rest {
            [byte @ b'0'..=b'9', left @ ..] => {
                let before = value.unwrap_or(0u32);
                value = Some(
                    before
                        .saturating_mul(10)
                        .saturating_add(u32::from(*byte - b'0')),
                );
                rest = left;
            }
            _ => break,
        }
    }
    (value, rest)
}

/// What stands before the first closing brace, and what behind it.
fn until_brace(text: &[u8]) -> (&[u8], &[u8]) {
    match text.iter().position(|byte| *byte == b'}') {
        Some(at) => (&text[..at], &text[at + 1..]),
        None => (text, &[]),
    }
}

/// The bytes that a text of the notation stands for.
pub fn bytes_of(alloc: Global, names: &Names, text: &[u8]) -> Result<Vec<u8>, Fault> {
    let mut writer = Writer {
        bytes: Vec::new(alloc),
        open: Vec::new(alloc),
    };
    writer.run(alloc, names, text)?;
    let Writer { bytes, open: _ } = writer;
    Ok(bytes)
}

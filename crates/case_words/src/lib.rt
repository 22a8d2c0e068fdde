// What is printed: names, numbers, differences. Each is a value that is displayed.
#![tactic(auto)]

mod codes;
mod differing;

use codes::Digits;
pub use codes::{Address, Attention, Code, Sense};
pub use differing::Differing;
use std::fmt;

// A name of a case or a file, in which bytes that can not be printed are escaped.
#[derive(Clone, Copy)]
pub struct Name<'a>(pub &'a [u8]);

// A byte that stands in the output as itself.
fn printable(byte: u8) -> bool {
    matches!(byte, b' '..=b'~')
}

impl fmt::Display for Name<'_> {
    // What can be printed goes out in runs, not byte by byte: each write may be a call of the system.
    fn fmt<W: fmt::Write>(&self, f: &mut fmt::Formatter<W>) -> fmt::Result {
        for run in self.0.chunk_by(|a, b| printable(*a) && printable(*b)) {
            match run {
                [byte] if !printable(*byte) => write!(f, "\\x{}", Digits(u32::from(*byte), 2))?,
                _ => f.write_str(str::from_utf8(run).unwrap_or_default())?,
            }
        }
        Ok(())
    }
}

// Why a case failed, behind `failed NAME: `: `2 lines could not be read, 1 value differs`
#[derive(Clone, Copy)]
pub struct Failure {
    pub faults: u64,
    pub differences: u64,
}

impl fmt::Display for Failure {
    fn fmt<W: fmt::Write>(&self, f: &mut fmt::Formatter<W>) -> fmt::Result {
        match self.faults {
            0 => return write!(f, "nothing was compared"),
            1 => write!(f, "1 line could not be read")?,
            n => write!(f, "{n} lines could not be read")?,
        }
        match self.differences {
            0 => Ok(()),
            1 => write!(f, ", 1 value differs"),
            n => write!(f, ", {n} values differ"),
        }
    }
}

// A number that a call ended with, where no line asks for one; and the call's line.
#[derive(Clone, Copy)]
pub struct Unasked {
    pub line: u64,
    pub number: u32,
}

impl fmt::Display for Unasked {
    fn fmt<W: fmt::Write>(&self, f: &mut fmt::Formatter<W>) -> fmt::Result {
        let Unasked { line, number } = *self;
        write!(f, "line {line}: number {number}, which no line asks for")
    }
}

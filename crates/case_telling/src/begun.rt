// A case from its first line to its end.
use case_words::{Failure, Name, Unasked};
use std::io::Write;
use std::{fmt, io};

// The case that the lines are of, and what they have come to.
#[derive(Clone, Copy)]
pub struct Case<'a> {
    // "all the words behind `case`"; none is a name too
    pub name: &'a [u8],
    // the number of its line
    line: u64,
    // the number that the last call ended with, until a line asks for it
    pub(crate) owed: Option<Unasked>,
    pub(crate) compared: bool,
    faults: u64,
    differences: u64,
    // whether the line `differs NAME: ..` is still open
    open: bool,
}

// The name of a case, or the line of one that has none.
impl fmt::Display for Case<'_> {
    fn fmt<W: fmt::Write>(&self, f: &mut fmt::Formatter<W>) -> fmt::Result {
        match self.name {
            [] => write!(f, "line {}", self.line),
            name => write!(f, "{}", Name(name)),
        }
    }
}

impl<'a> Case<'a> {
    pub(crate) fn begin(name: &'a [u8], line: u64) -> Case<'a> {
        Case {
            name,
            line,
            owed: None,
            compared: false,
            faults: 0,
            differences: 0,
            open: false,
        }
    }

    // Ends the line `differs NAME: ..`, if it is open.
    fn close<W: Write>(&mut self, out: &mut W) -> io::Result<()> {
        if self.open {
            writeln!(out)?;
        }
        self.open = false;
        Ok(())
    }

    // A line that can't be read or obeyed.
    pub(crate) fn fault<W: Write>(&mut self, out: &mut W) -> io::Result<()> {
        self.faults = self.faults.saturating_add(1);
        self.close(out)
    }

    // One more difference, told behind `differs NAME: `.
    pub(crate) fn differ<W: Write, D: fmt::Display + Drop>(
        &mut self,
        out: &mut W,
        what: D,
    ) -> io::Result<()> {
        self.differences = self.differences.saturating_add(1);
        if self.open {
            return write!(out, "; {what}");
        }
        self.open = true;
        write!(out, "differs {self}: {what}")
    }

    // The number that no line has asked for is one more difference.
    pub(crate) fn demand<W: Write>(&mut self, out: &mut W) -> io::Result<()> {
        match self.owed.take() {
            Some(unasked) => self.differ(out, unasked),
            None => Ok(()),
        }
    }

    // Ends the case and tells it, if its differences have not. Whether it has passed.
    pub(crate) fn finish<W: Write>(&mut self, out: &mut W) -> io::Result<bool> {
        self.demand(out)?;
        self.close(out)?;
        let faults = self.faults;
        let differences = self.differences;
        if faults == 0 && 0 < differences {
            return Ok(false);
        }
        if faults == 0 && self.compared {
            writeln!(out, "ok {self}")?;
            return Ok(true);
        }
        let failure = Failure {
            faults,
            differences,
        };
        writeln!(out, "failed {self}: {failure}")?;
        Ok(false)
    }
}

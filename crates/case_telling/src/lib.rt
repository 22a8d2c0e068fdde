// The beginning and the end of a case, and what its lines come to.
#![tactic(auto)]

mod begun;
mod counts;
mod reason;

ghost use Rattle.std.specs.Prelude.{◌≡◌, ◌+◌, ◌-◌, ◌^◌, min};

pub use begun::Case;
use case_rooms::Finding;
use case_script::Line;
use case_script::fault::Fault;
use case_words::{Differing, Name, Unasked};
pub use counts::Counts;
pub use reason::Reason;
use std::io;
use std::io::Write;

// A file that is run, and what its lines have come to so far.
#[derive(Clone, Copy)]
pub struct Run<'a> {
    pub path: &'a [u8],
    pub file: &'a [u8],
    // with those of the files before it
    pub counts: Counts,
    // the line's number, and the case that it is of
    pub number: u64,
    pub case: Option<Case<'a>>,
}

impl<'a> Run<'a> {
    // A file begins, behind those that are counted.
    pub fn start(counts: Counts, path: &'a [u8], file: &'a [u8]) -> Run<'a>
        ensures counts { result.counts ≡ counts }
        ensures number { result.number ≡ 0 }
        ensures case { result.case ≡ None }
    {
        Run {
            path,
            file,
            counts,
            number: 0,
            case: None,
        }
    }

    // The next line.
    pub fn next(&mut self)
        ensures number { self.new.number ≡ min (self.old.number + 1) (2 ^ 64 - 1) }
        ensures counts { self.new.counts ≡ self.old.counts }
        ensures case { self.new.case ≡ self.old.case }
    {
        self.number = self.number.saturating_add(1);
    }

    // Ends the case that has begun, if one has.
    pub fn finish<W: Write>(&mut self, out: &mut W) -> io::Result<()> {
        let Some(mut case) = self.case else {
            return Ok(());
        };
        if case.finish(out)? {
            self.counts.pass();
        } else {
            self.counts.fail();
        }
        Ok(())
    }

    // The end of the file: "a file without a case has failed".
    pub fn end<W: Write>(&mut self, out: &mut W) -> io::Result<()>
        ensures { self.old.case ≡ None → self.new.counts.failed ≡ min (self.old.counts.failed + 1) (2 ^ 64 - 1) }
    {
        if self.case.is_none() {
            return self.counts.fail_file(out, self.path, "no case in it");
        }
        self.finish(out)
    }

    // A case begins in this line; the one before it ends.
    pub fn begin<W: Write>(&mut self, out: &mut W, name: &'a [u8]) -> io::Result<()> {
        self.finish(out)?;
        self.case = Some(Case::begin(name, self.number));
        Ok(())
    }

    // "A call that ended with a number fails its case unless a `number` line asks for it", which stands behind it and before the next call.
    pub fn demand<W: Write>(&mut self, out: &mut W) -> io::Result<()> {
        match &mut self.case {
            Some(case) => case.demand(out),
            None => Ok(()),
        }
    }

    // The call of this line has ended.
    pub fn owe(&mut self, number: u32) {
        let line = self.number;
        if let Some(case) = &mut self.case {
            case.owed = (number != 0).then_some(Unasked { line, number });
        }
    }

    // This line asks for the number of the last call.
    pub fn asked(&mut self) {
        if let Some(case) = &mut self.case {
            case.owed = None;
        }
    }

    // A line that can't be read or obeyed, for a reason that stands at a column, from 0: `FILE:LINE:COLUMN: reason`
    pub fn faulty<W: Write>(
        &mut self,
        out: &mut W,
        column: usize,
        reason: Reason,
    ) -> io::Result<()> {
        match &mut self.case {
            Some(case) => case.fault(out)?,
            None => self.counts.fail(),
        }
        let name = Name(self.path);
        let number = self.number;
        let column = column.saturating_add(1);
        writeln!(out, "{name}:{number}:{column}: {reason}")
    }

    // What a line of the case that has begun, whose text is given, came to. Line, text and finding come apart: a struct of them would be made for this call alone.
    pub fn told<W: Write>(
        &mut self,
        out: &mut W,
        line: Line,
        text: &[u8],
        finding: Result<Finding, Fault>,
        limit: usize,
    ) -> io::Result<()> {
        let number = self.number;
        match (finding, &mut self.case) {
            (Err(why), _) => self.faulty(out, line.from, Reason { why, limit }),
            (Ok(Finding::Same), Some(case)) => {
                case.compared = true;
                Ok(())
            },
            (Ok(Finding::Differs(difference)), Some(case)) => {
                case.compared = true;
                case.differ(
                    out,
                    Differing {
                        line,
                        text,
                        number,
                        difference,
                    },
                )
            },
            _ => Ok(()),
        }
    }
}

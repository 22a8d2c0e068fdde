// What the lines of a file come to, one behind the other. A line that says something has been obeyed when it comes here; it is told.
#![tactic(auto)]

use case_rooms::{Effect, Finding, State};
use case_script::Line;
use case_script::class::Class;
use case_script::fault::{Fault, Stop};
use case_script::word::Word;
use case_telling::{Counts, Reason, Run};
use std::io;
use std::io::Write;

// The run, and what its case has come to.
#[derive(Clone, Copy)]
pub struct Progress<'a> {
    pub run: Run<'a>,
    pub state: State,
}

// Whether a line calls the core.
fn calls(line: Line) -> bool {
    matches!(line.word.class(), Class::Call | Class::Replay)
}

impl<'a> Progress<'a> {
    // A file begins, behind those that are counted.
    pub fn first(counts: Counts, path: &'a [u8], file: &'a [u8]) -> Progress<'a> {
        Progress {
            run: Run::start(counts, path, file),
            state: State::fresh(),
        }
    }

    // A line of a case: a call must find the number of the call before it asked for, and `number` asks for it. What it has come to is told.
    fn found<W: Write>(
        &mut self,
        out: &mut W,
        line: Line,
        text: &[u8],
        finding: Result<Finding, Fault>,
    ) -> io::Result<()> {
        if calls(line) {
            self.run.demand(out)?;
        }
        if line.word == Word::Number {
            self.run.asked();
        }
        let limit = case_trial::limit::of(self.state, line.word, finding);
        self.run.told(out, line, text, finding, limit)?;
        // a line that can't be obeyed has called nothing
        if calls(line) && finding.is_ok() {
            self.run.owe(self.state.number());
        }
        Ok(())
    }

    // A line that can't be read: "a bad `case` line begins a case that has failed".
    fn unread<W: Write>(&mut self, out: &mut W, text: &'a [u8], stop: Stop) -> io::Result<()> {
        if case_heading::is_one(text) {
            self.state = State::fresh();
            return case_heading::misbegun(out, &mut self.run, text, stop);
        }
        self.run.faulty(out, stop.at, Reason::from(stop.why))
    }

    // A line that says something: a case begins, or goes on.
    fn said<W: Write>(
        &mut self,
        out: &mut W,
        line: Line,
        text: &'a [u8],
        finding: Result<Finding, Fault>,
    ) -> io::Result<()> {
        if line.word == Word::Case {
            self.state = State::fresh();
            return case_heading::begun(out, &mut self.run, line, text);
        }
        if self.run.case.is_none() {
            return self.run.faulty(out, line.from, Reason::from(Fault::NoCase));
        }
        self.found(out, line, text, finding)
    }

    // Goes on behind a line, by its text: how it was read, and what it has done.
    pub fn next<W: Write>(
        &mut self,
        out: &mut W,
        text: &'a [u8],
        reading: Result<Option<Line>, Stop>,
        effect: Effect,
    ) -> io::Result<()> {
        self.run.next();
        self.state = effect.state;
        match reading {
            Ok(None) => Ok(()),
            Ok(Some(line)) => self.said(out, line, text, effect.finding),
            Err(stop) => self.unread(out, text, stop),
        }
    }
}

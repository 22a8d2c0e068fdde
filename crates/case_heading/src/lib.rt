// The lines that begin a case, good and bad.
#![tactic(auto)]

mod heading;

use case_script::Line;
use case_script::fault::{Fault, Stop};
use case_telling::{Reason, Run};
use heading::name_in;
use std::io;
use std::io::Write;

pub fn is_one(line: &[u8]) -> bool {
    name_in(line).is_some()
}

// Whether a case before the line of this number has this name.
fn stands_before(run: &Run<'_>, name: &[u8]) -> bool {
    let before = run.number.saturating_sub(1) as usize;
    run.file
        .split(|byte| *byte == b'\n')
        .take(before)
        .any(|line| name_in(line) == Some(name))
}

// A case under all the words behind `case`; none is a name too, which is told by its line.
fn opened<'a, W: Write>(out: &mut W, run: &mut Run<'a>, text: &'a [u8]) -> io::Result<&'a [u8]> {
    let name = name_in(text).unwrap_or(&[]);
    run.begin(out, name)?;
    Ok(name)
}

// "a bad `case` line begins a case that has failed"
pub fn misbegun<'a, W: Write>(
    out: &mut W,
    run: &mut Run<'a>,
    text: &'a [u8],
    stop: Stop,
) -> io::Result<()> {
    opened(out, run, text)?;
    run.faulty(out, stop.at, Reason::from(stop.why))
}

// A case begins: its name must not be cut by a comment, and must be new in the file.
pub fn begun<'a, W: Write>(
    out: &mut W,
    run: &mut Run<'a>,
    line: Line,
    text: &'a [u8],
) -> io::Result<()> {
    let name = opened(out, run, text)?;
    if text.get(line.from..line.to) != Some(name) {
        return run.faulty(out, line.to, Reason::from(Fault::NameCut));
    }
    if stands_before(run, name) {
        return run.faulty(out, line.from, Reason::from(Fault::NameTwice));
    }
    Ok(())
}

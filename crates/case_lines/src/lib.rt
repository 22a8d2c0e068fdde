// The lines of a case file, one by one: what each does to the tables and the calls.
#![tactic(auto)]

use case_progress::Progress;
use case_rooms::{Effect, parts};
use case_telling::Counts;
use std::io;
use std::io::Write;

// The next line of the file. Nothing is told before it is obeyed. Room and bytes are lent apart, not as one struct: what obeys writes the room while it reads the bytes.
fn line<'a, W: Write>(
    out: &mut W,
    progress: &mut Progress<'a>,
    text: &'a [u8],
    room: &mut [u8],
    bytes: &mut [u8],
) -> io::Result<()> {
    let reading = case_script::read_line(text, bytes);
    let effect = match case_doing::to_do(progress.run.case.is_some(), reading) {
        Some(line) => case_obeying::obey(progress.state, line, room, bytes),
        None => Effect::behind(progress.state, Ok(progress.state)),
    };
    progress.next(out, text, reading, effect)
}

// The lines of a whole file, and the end of its last case. A line feed at the end begins one more line, which is empty.
pub fn run_lines<W: Write>(
    out: &mut W,
    counts: &mut Counts,
    path: &[u8],
    file: &[u8],
) -> io::Result<()> {
    let mut room = [0u8; parts::ROOM];
    let mut bytes = [0u8; parts::BYTES];
    let mut progress = Progress::first(*counts, path, file);
    for text in file.split(|byte| *byte == b'\n') {
        line(out, &mut progress, text, &mut room, &mut bytes)?;
    }
    progress.run.end(out)?;
    *counts = progress.run.counts;
    Ok(())
}

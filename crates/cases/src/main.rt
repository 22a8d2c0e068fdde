// Runs the case files that it is named, one after the other, and prints a line for each case.
#![tactic(auto)]

use case_telling::Counts;
use std::env::FillError;
use std::io;
use std::io::Write;
use std::rt::{Env, Files};

fn run_file<W: Write>(
    files: &impl Files,
    out: &mut W,
    counts: &mut Counts,
    path: &[u8],
) -> io::Result<()> {
    let mut room = case_reading::file_room();
    match case_reading::read_whole(files, path, &mut room) {
        Ok(file) => case_lines::run_lines(out, counts, path, file),
        Err(why) => counts.fail_file(out, path, why),
    }
}

// The i-th argument, which is a file's name, behind those that are counted; `None` behind the last argument.
fn run_argument<W: Write>(
    rt: &(impl Env + Files),
    out: &mut W,
    so_far: Counts,
    i: usize,
) -> io::Result<Option<Counts>> {
    let mut path = [0u8; 4096];
    let mut counts = so_far;
    match rt.arg(i, &mut path) {
        Ok(k) => run_file(rt, out, &mut counts, &path[..k])?,
        Err(FillError::TooLong) => case_reading::unnamed(out, &mut counts)?,
        Err(FillError::NotPresent) => return Ok(None),
    }
    Ok(Some(counts))
}

// The arguments from the second on; the first is the program's own name.
fn main(rt: HostRuntime) -> io::Result<()> {
    let mut out = io::writer(&rt);
    let mut told = None;
    for i in 1..usize::MAX {
        let so_far = told.unwrap_or_default();
        let Some(counts) = run_argument(&rt, &mut out, so_far, i)? else {
            break;
        };
        told = Some(counts);
    }
    case_reading::say_end(&mut out, told)
}

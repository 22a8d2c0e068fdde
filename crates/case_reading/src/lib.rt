// A file read whole, or told as one that has failed; and the end of a run.
#![tactic(auto)]

ghost use Rattle.std.specs.Prelude.{◌≡◌, length};
ghost use Rattle.std.specs.Io.{ReadsAtMost};

use case_telling::Counts;
use std::io::{Read, Write};
use std::rt::Files;
use std::{fmt, fs, io};

// The most bytes of a file.
pub const FILE_MOST: usize = 1048576;

// Room for a whole file. It stays a function, since the check of a caller that wrote so long an array itself went deeper than it can follow.
pub fn file_room() -> [u8; FILE_MOST]
    ensures { 1048576 ≡ length result }
{
    [0; FILE_MOST]
}

// Why a file was not read whole.
#[derive(Clone, Copy, PartialEq, Eq)]
pub enum Missed {
    TooLong,
    Unread,
    Unopened,
}

impl fmt::Display for Missed {
    fn fmt<W: fmt::Write>(&self, f: &mut fmt::Formatter<W>) -> fmt::Result {
        match self {
            Missed::TooLong => write!(f, "longer than 1,048,576 bytes"),
            Missed::Unread => write!(f, "cannot be read"),
            Missed::Unopened => write!(f, "cannot be opened"),
        }
    }
}

// Reads until `file` is full or the source ends, and answers how many bytes it put at the front of `file`. The file has fixed memory, and std's `read_to_end` asks for a `Vec`.
fn read_full<R: Read>(source: &mut R, file: &mut [u8]) -> io::Result<usize>
    ensures { ReadsAtMost result file.new }
{
    let mut done: usize = 0;
    while done < file.len() {
        let n = source.read(&mut file[done..])?;
        if n == 0 {
            return Ok(done);
        }
        done += n;
    }
    Ok(done)
}

// Reads a whole source, from which nothing has been read, to the front of `file`.
fn read_source<'a, R: Read>(source: &mut R, file: &'a mut [u8]) -> Result<&'a [u8], Missed> {
    let Ok(n) = read_full(source, file) else {
        return Err(Missed::Unread);
    };
    let mut more = [0u8; 1];
    match source.read(&mut more) {
        Ok(0) => Ok(&file[..n]),
        Ok(_) => Err(Missed::TooLong),
        Err(_) => Err(Missed::Unread),
    }
}

// Reads a whole file to the front of `file`. A name that is not UTF-8 can not be opened.
pub fn read_whole<'a>(
    files: &impl Files,
    path: &[u8],
    file: &'a mut [u8],
) -> Result<&'a [u8], Missed> {
    let Ok(name) = str::from_utf8(path) else {
        return Err(Missed::Unopened);
    };
    let Ok(mut source) = fs::open(files, name) else {
        return Err(Missed::Unopened);
    };
    read_source(&mut source, file)
}

// An argument that is too long for the name of a file.
pub fn unnamed<W: Write>(out: &mut W, counts: &mut Counts) -> io::Result<()> {
    counts.fail_file(out, b"an argument", "longer than 4,096 bytes")
}

// The counts of all the files, if any was named.
pub fn say_end<W: Write>(out: &mut W, told: Option<Counts>) -> io::Result<()> {
    if told.is_none() {
        writeln!(out, "use: cases FILE..")?;
    }
    let nothing = Counts {
        passed: 0,
        failed: 1,
    };
    writeln!(out, "{}", told.unwrap_or(nothing))
}

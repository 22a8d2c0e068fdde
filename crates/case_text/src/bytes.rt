// Bytes: "one or two hexadecimal digits, with blanks or `/` between them; `*` and a decimal number behind a byte repeat it".
ghost use Rattle.std.specs.Prelude.{◌≡◌, ◌+◌, ◌≤◌, length, take, replicate};
ghost use Rattle.rules.specs.Bytes.{put};
ghost use Rattle.case_text.specs.Bytes.{byte_of, run_of, all, and_then, given, onto};

use crate::fault::{Fault, Stop};
use crate::number::{digit, pair, value};
use crate::{Sought, find};

// A byte, so many times.
#[derive(Clone, Copy, PartialEq, Eq)]
pub struct Run {
    pub byte: u8,
    pub times: usize,
}

// One or two digits.
fn one_byte(digits: &[u8]) -> Option<u8>
    ensures { result ≡ byte_of digits.now }
{
    match digits {
        [only] => digit(*only),
        [high, low] => pair(*high, *low),
        _ => None,
    }
}

// A byte, with a star and a number behind it or without.
fn one_run(word: &[u8]) -> Result<Run, Fault>
    ensures { result ≡ run_of word.now }
{
    let star = find(word, 0, Sought::Star);
    let Some(byte) = one_byte(&word[..star]) else {
        return Err(Fault::ByteExpected);
    };
    if star == word.len() {
        return Ok(Run { byte, times: 1 });
    }
    let times = value(&word[star + 1..], 10)?;
    Ok(Run {
        byte,
        // `as`: usize has no From of a u32
        times: times as usize,
    })
}

// A byte written n times, from a place on.
#[tactic(auto, using(crate::proofs::Buffers::filled))]
fn fill(bytes: &mut [u8], from: usize, b: u8, n: usize)
    requires { from + n ≤ length bytes.old }
    ensures { bytes.new ≡ put bytes.old from (replicate n b) }
{
    bytes[from..from + n].fill(b);
}

// One run behind the bytes that are there: how many there are then.
pub fn put_run(
    run: Result<Run, Fault>,
    at: usize,
    bytes: &mut [u8],
    count: usize,
) -> Result<usize, Stop>
    requires { count ≤ length bytes.old }
    ensures { record { told = result; bytes = bytes.new }
        ≡ onto bytes.old (and_then (length bytes.old) at (take count bytes.old) run all) }
{
    match run {
        Err(why) => Err(Stop { why, at }),
        Ok(Run { byte, times }) => {
            if bytes.len() - count < times {
                return Err(Stop {
                    why: Fault::TooManyBytes,
                    at,
                });
            }
            fill(bytes, count, byte, times);
            Ok(count + times)
        }
    }
}

// All the bytes from a place to the end of the text, to the front of `bytes`: how many there are.
pub fn all_bytes(text: &[u8], from: usize, bytes: &mut [u8]) -> Result<usize, Stop>
    requires { from ≤ length text.now }
    ensures { record { told = result; bytes = bytes.new }
        ≡ onto bytes.old (given (length bytes.old) text.now from) }
{
    let mut count: usize = 0;
    let mut at = find(text, from, Sought::Byte);
    while at < text.len() {
        let to = find(text, at + 1, Sought::Break);
        count = put_run(one_run(&text[at..to]), at, bytes, count)?;
        at = find(text, to, Sought::Byte);
    }
    Ok(count)
}

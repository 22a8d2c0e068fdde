// A line of text: its letters as they stand, where "`\t` stands for a tab, `\xNN` for any byte", and the line feed behind it.
ghost use Rattle.std.specs.Prelude.{◌≡◌, ◌+◌, ◌≤◌, ◌<◌, length};
ghost use Rattle.case_text.specs.Bytes.{onto};
ghost use Rattle.case_text.specs.Letters.{letter_at, escape_of, letter_of, letter_end, written};

use crate::bytes::{Run, put_run};
use crate::fault::{Fault, Stop};
use crate::number::pair;

// The letter at a place of a line; behind the last stands a line feed.
#[tactic(auto, unfolding(crate::specs::Letters::letter_at, rules::specs::Choice::when))]
fn letter(text: &[u8], at: usize) -> u8
    ensures { result ≡ letter_at text.now at }
{
    text.get(at).copied().unwrap_or(b'\n')
}

// What a backslash and the letters from a place on stand for.
#[tactic(auto, unfolding(crate::specs::Letters::escape_of, rules::specs::Choice::when))]
fn escape(text: &[u8], at: usize) -> Result<u8, Fault>
    requires { at ≤ length text.now + 1 }
    ensures { result ≡ escape_of text.now at }
{
    match letter(text, at) {
        b't' => Ok(b'\t'),
        b'x' => pair(letter(text, at + 1), letter(text, at + 2)).ok_or(Fault::NoEscape),
        _ => Err(Fault::NoEscape),
    }
}

// The byte that the letter at a place stands for, once.
#[tactic(auto, unfolding(crate::specs::Letters::letter_of, rules::specs::Choice::when))]
fn one_letter(text: &[u8], at: usize) -> Result<Run, Fault>
    requires { at ≤ length text.now }
    ensures { result ≡ letter_of text.now at }
{
    let byte = match letter(text, at) {
        b'\\' => escape(text, at + 1)?,
        letter => letter,
    };
    Ok(Run { byte, times: 1 })
}

// The place of the next letter.
#[tactic(auto, unfolding(crate::specs::Letters::letter_end, rules::specs::Choice::when))]
fn letter_end(text: &[u8], at: usize) -> usize
    requires { at ≤ length text.now }
    ensures value { result ≡ letter_end text.now at }
    ensures lower_bound { at < result }
{
    if letter(text, at) != b'\\' {
        return at + 1;
    }
    if letter(text, at + 1) == b'x' {
        return at + 4;
    }
    at + 2
}

// The text from a place to the end of the line, and its line feed, to the front of `bytes`: how many bytes it is.
pub fn all_letters(text: &[u8], from: usize, bytes: &mut [u8]) -> Result<usize, Stop>
    ensures { record { told = result; bytes = bytes.new }
        ≡ onto bytes.old (written (length bytes.old) text.now from) }
{
    let mut count: usize = 0;
    let mut at = from;
    while at <= text.len() {
        count = put_run(one_letter(text, at), at, bytes, count)?;
        at = letter_end(text, at);
    }
    Ok(count)
}

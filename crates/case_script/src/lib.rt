// The lines of a case file: what a line says, or why it can not be read.
#![tactic(auto)]

pub mod class;
pub mod fault;
pub mod shape;
pub mod word;

ghost use Rattle.std.specs.Prelude.{◌≡◌, ◌≤◌, length, map};
ghost use Rattle.case_script.specs.Names.{place_from, code_of};
ghost use Rattle.case_script.specs.Lines.{saying, bare_word, finished, name_read, tables_named, tables_read, taken_at, Within, one_number, second_number, two_numbers};
ghost use Rattle.case_script.specs.Lines.{many_bytes, behind_blank, log_read, wrong_count, exactly, number_and_bytes, rest as restOf};
ghost use Rattle.case_script.specs.Lines.{set_read, word_read, text_read, uncommented as uncommentedOf, line_read, Inside};

use case_text::{Sought, find, same};
use fault::{Fault, Stop};
use shape::Shape;
use word::{NAMES, Word};

// What a line says. The bytes that it gives stand at the front of the buffer.
#[derive(Clone, Copy, PartialEq, Eq)]
pub struct Line {
    // `set` stood before the word
    pub set: bool,
    pub word: Word,
    // the numbers, 0 where the word takes none
    pub first: u32,
    pub second: u32,
    // how many bytes the line gives
    pub count: usize,
    // where the word begins and ends; for `case`, its name
    pub from: usize,
    pub to: usize,
}

// A line whose word is read, and the text that it stands in.
#[derive(Clone, Copy)]
struct Begun<'a> {
    text: &'a [u8],
    line: Line,
    ghost within: { line.to ≤ length text.now },
}

// A text from a place on.
#[derive(Clone, Copy)]
struct Rest<'a> {
    text: &'a [u8],
    at: usize,
    ghost within: { at ≤ length text.now },
}

// A number, and where its word ends.
#[derive(Clone, Copy, PartialEq, Eq)]
struct Taken {
    number: u32,
    end: usize,
}

// What a line says; nothing, where it is blank or a comment: "`#` begins a comment that goes to the end of the line".
pub fn read_line(line: &[u8], bytes: &mut [u8]) -> Result<Option<Line>, Stop>
    ensures bytes_after { record { reading = result; bytes = bytes.new } ≡ line_read line.now bytes.old }
    ensures inside { Inside (length line.now) (length bytes.old) result }
{
    let end = find(line, 0, Sought::Hash);
    let said = read_text(&line[..end], bytes)?;
    uncommented(end, line.len(), said)
}

// A comment behind a text would be taken for a part of it, or a part of it for a comment: "no comment can stand behind `log`".
#[tactic(auto, unfolding(rules::specs::Choice::when))]
fn uncommented(end: usize, n: usize, said: Option<Line>) -> Result<Option<Line>, Stop>
    ensures { result ≡ uncommentedOf end n said }
{
    if let Some(line) = said {
        if line.word == Word::Log && end < n {
            return Err(Stop {
                why: Fault::CommentInText,
                at: end,
            });
        }
    }
    Ok(said)
}

// A line without its comment.
#[tactic(auto, unfolding(crate::specs::Lines::text_read, rules::specs::Choice::when))]
fn read_text(text: &[u8], bytes: &mut [u8]) -> Result<Option<Line>, Stop>
    ensures { record { reading = result; bytes = bytes.new } ≡ text_read text.now bytes.old }
{
    let from = find(text, 0, Sought::Word);
    if from == text.len() {
        return Ok(None);
    }
    Ok(Some(read_word(Rest { text, at: from }, bytes)?))
}

// A line whose first word begins at a place.
#[tactic(auto, unfolding(crate::specs::Lines::from_word, rules::specs::Choice::when, case_text::specs::Text::letters))]
fn read_word(rest: Rest<'_>, bytes: &mut [u8]) -> Result<Line, Stop>
    ensures { record { reading = result; bytes = bytes.new } ≡ word_read rest.entry.text.now rest.entry.at bytes.old }
{
    let Rest { text, at: from, .. } = rest;
    let to = find(text, from, Sought::Gap);
    let first = &text[from..to];
    if same(first, b"set") {
        return read_set(Rest { text, at: to }, bytes);
    }
    let Some(word) = named(first) else {
        return Err(Stop {
            why: Fault::UnknownWord,
            at: from,
        });
    };
    read_rest(
        Begun {
            text,
            line: bare(false, word, from, to),
        },
        bytes,
    )
}

// What `set` stands before.
#[tactic(auto, unfolding(crate::specs::Lines::set_read, rules::specs::Choice::when))]
fn read_set(rest: Rest<'_>, bytes: &mut [u8]) -> Result<Line, Stop>
    ensures { record { reading = result; bytes = bytes.new } ≡ set_read rest.entry.text.now rest.entry.at bytes.old }
{
    let Rest { text, at, .. } = rest;
    let from = find(text, at, Sought::Word);
    let to = find(text, from, Sought::Gap);
    let Some(word) = named(&text[from..to]) else {
        return Err(Stop {
            why: Fault::UnknownWord,
            at: from,
        });
    };
    if word.can_be_set() {
        return read_rest(
            Begun {
                text,
                line: bare(true, word, from, to),
            },
            bytes,
        );
    }
    Err(Stop {
        why: Fault::NotSet,
        at: from,
    })
}

// The first of some words that is written so.
#[tactic(auto, unfolding(rules::specs::Choice::when))]
fn named_among(mut names: &[(&[u8], Word)], written: &[u8]) -> Option<Word>
    ensures { result ≡ place_from written.now (map (λ n. (n.0.now, n.1)) names.entry.now) }
{
    while let [name, rest @ ..] = names {
        if same(written, name.0) {
            return Some(name.1);
        }
        names = rest;
    }
    None
}

// The word that is written so.
fn named(written: &[u8]) -> Option<Word>
    ensures { result ≡ code_of written.now }
{
    named_among(&NAMES, written)
}

// A word with nothing behind it yet.
fn bare(set: bool, word: Word, from: usize, to: usize) -> Line
    ensures { result ≡ bare_word set word from to }
{
    Line {
        set,
        word,
        first: 0,
        second: 0,
        count: 0,
        from,
        to,
    }
}

// What belongs to a word.
#[tactic(auto, unfolding(crate::specs::Lines::rest))]
fn read_rest(begun: Begun<'_>, bytes: &mut [u8]) -> Result<Line, Stop>
    ensures { record { reading = result; bytes = bytes.new } ≡ restOf begun.entry.text.now begun.entry.line bytes.old }
{
    let Begun { text, line, .. } = begun;
    let shape = line.word.shape();
    match shape {
        Shape::Name => read_name(begun),
        Shape::Tables => read_tables(begun),
        Shape::Nothing => finish(Rest { text, at: line.to }, line, 0, 0),
        Shape::One => read_one(begun),
        Shape::Two => read_two(begun),
        Shape::Bytes => read_bytes(Rest { text, at: line.to }, line, 0, bytes),
        Shape::Text => read_log(begun, bytes),
        Shape::NumberAndBytes | Shape::NumberAndTwoBytes | Shape::NumberAndThreeBytes => {
            read_number_and_bytes(begun, shape, bytes)
        }
    }
}

// A line with its numbers and the count of its bytes.
fn say(line: Line, first: u32, second: u32, count: usize) -> Line
    ensures { result ≡ saying line first second count }
{
    Line {
        first,
        second,
        count,
        ..line
    }
}

// What is left over is a fault.
#[tactic(auto, unfolding(crate::specs::Lines::finished, rules::specs::Choice::when))]
fn finish(rest: Rest<'_>, line: Line, first: u32, second: u32) -> Result<Line, Stop>
    ensures { result ≡ finished rest.entry.text.now rest.entry.at line first second }
{
    let Rest { text, at, .. } = rest;
    let from = find(text, at, Sought::Word);
    let left_over = Stop {
        why: Fault::LeftOver,
        at: from,
    };
    if from < text.len() {
        return Err(left_over);
    }
    Ok(say(line, first, second, 0))
}

// `case`
#[tactic(auto, unfolding(crate::specs::Lines::name_read, crate::specs::Lines::named, rules::specs::Choice::when))]
fn read_name(begun: Begun<'_>) -> Result<Line, Stop>
    ensures { result ≡ name_read begun.entry.text.now begun.entry.line }
{
    let Begun { text, line, .. } = begun;
    let from = find(text, line.to, Sought::Word);
    if from == text.len() {
        return Err(Stop {
            why: Fault::NameMissing,
            at: from,
        });
    }
    let to = find(text, from, Sought::Gap);
    finish(
        Rest { text, at: to },
        bare(line.set, line.word, from, to),
        0,
        0,
    )
}

// `tables`
#[tactic(auto, unfolding(crate::specs::Lines::tables_read, crate::specs::Lines::tabled, crate::specs::Lines::tables_named, rules::specs::Choice::when))]
fn read_tables(begun: Begun<'_>) -> Result<Line, Stop>
    ensures { result ≡ tables_read begun.entry.text.now begun.entry.line }
{
    let Begun { text, line, .. } = begun;
    let from = find(text, line.to, Sought::Word);
    if from == text.len() {
        return Err(Stop {
            why: Fault::NameMissing,
            at: from,
        });
    }
    let to = find(text, from, Sought::Gap);
    let Some(word) = tables_named(&text[from..to]) else {
        return Err(Stop {
            why: Fault::NotTables,
            at: from,
        });
    };
    finish(
        Rest { text, at: to },
        bare(line.set, word, line.from, line.to),
        0,
        0,
    )
}

// The word for the tables that a name means.
#[tactic(auto, unfolding(crate::specs::Lines::tables_named, rules::specs::Choice::when, case_text::specs::Text::letters))]
fn tables_named(name: &[u8]) -> Option<Word>
    ensures { result ≡ tables_named name.now }
{
    if same(name, b"small") {
        return Some(Word::TablesSmall);
    }
    if same(name, b"empty") {
        return Some(Word::TablesEmpty);
    }
    None
}

// The number in the next word.
#[tactic(auto, unfolding(crate::specs::Lines::taken_at))]
fn take_number(rest: Rest<'_>) -> Result<Taken, Stop>
    ensures value { result ≡ taken_at rest.entry.text.now rest.entry.at }
    ensures within { Within (length rest.entry.text.now) result }
{
    let Rest { text, at, .. } = rest;
    let from = find(text, at, Sought::Word);
    let end = find(text, from, Sought::Gap);
    match case_text::number::number_in(&text[from..end]) {
        Ok(number) => Ok(Taken { number, end }),
        Err(why) => Err(Stop {
            why: Fault::from(why),
            at: from,
        }),
    }
}

// A word and one number.
#[tactic(auto, unfolding(crate::specs::Lines::one_number))]
fn read_one(begun: Begun<'_>) -> Result<Line, Stop>
    ensures { result ≡ one_number begun.entry.text.now begun.entry.line }
{
    let Begun { text, line, .. } = begun;
    let taken = take_number(Rest { text, at: line.to })?;
    finish(
        Rest {
            text,
            at: taken.end,
        },
        line,
        taken.number,
        0,
    )
}

// A word and two numbers.
#[tactic(auto, unfolding(crate::specs::Lines::two_numbers, crate::specs::Lines::second_number))]
fn read_two(begun: Begun<'_>) -> Result<Line, Stop>
    ensures { result ≡ two_numbers begun.entry.text.now begun.entry.line }
{
    let Begun { text, line, .. } = begun;
    let first = take_number(Rest { text, at: line.to })?;
    let second = take_number(Rest {
        text,
        at: first.end,
    })?;
    finish(
        Rest {
            text,
            at: second.end,
        },
        line,
        first.number,
        second.number,
    )
}

// Bytes up to the end of the line.
#[tactic(auto, unfolding(crate::specs::Lines::many_bytes))]
fn read_bytes(rest: Rest<'_>, line: Line, first: u32, bytes: &mut [u8]) -> Result<Line, Stop>
    ensures { record { reading = result; bytes = bytes.new } ≡ many_bytes rest.entry.text.now rest.entry.at line first bytes.old }
{
    let Rest { text, at, .. } = rest;
    let count = case_text::bytes::all_bytes(text, at, bytes)?;
    Ok(say(line, first, 0, count))
}

// Behind the blank at a place, if there is one.
#[tactic(auto, unfolding(rules::specs::Choice::when))]
fn behind_blank(text: &[u8], at: usize) -> usize
    ensures { result ≡ behind_blank text.now at }
{
    if at < text.len() { at + 1 } else { at }
}

// `log`: "all that stands behind it and one blank", and a line feed
#[tactic(auto, unfolding(crate::specs::Lines::log_read))]
fn read_log(begun: Begun<'_>, bytes: &mut [u8]) -> Result<Line, Stop>
    ensures { record { reading = result; bytes = bytes.new } ≡ log_read begun.entry.text.now begun.entry.line bytes.old }
{
    let Begun { text, line, .. } = begun;
    let from = behind_blank(text, line.to);
    let count = case_text::letters::all_letters(text, from, bytes)?;
    Ok(say(line, 0, 0, count))
}

// A word, a number and bytes.
#[tactic(auto, unfolding(crate::specs::Lines::number_and_bytes))]
fn read_number_and_bytes(begun: Begun<'_>, shape: Shape, bytes: &mut [u8]) -> Result<Line, Stop>
    ensures { record { reading = result; bytes = bytes.new } ≡ number_and_bytes begun.entry.text.now shape begun.entry.line bytes.old }
{
    let Begun { text, line, .. } = begun;
    let taken = take_number(Rest { text, at: line.to })?;
    let said = read_bytes(
        Rest {
            text,
            at: taken.end,
        },
        line,
        taken.number,
        bytes,
    )?;
    hold(shape, said)
}

// "KEY/ASC/ASCQ" are three bytes, and "ASC/ASCQ" are two; elsewhere no bytes at all would ask for nothing.
#[tactic(auto, unfolding(crate::specs::Lines::exactly, rules::specs::Choice::when))]
fn hold(shape: Shape, line: Line) -> Result<Line, Stop>
    ensures { result ≡ exactly shape line }
{
    if miscounted(shape, line.count) {
        return Err(Stop {
            why: Fault::WrongByteCount,
            at: line.from,
        });
    }
    Ok(line)
}

// Whether there are more or fewer bytes than the word takes.
#[tactic(auto, unfolding(rules::specs::Choice::differ))]
fn miscounted(shape: Shape, count: usize) -> bool
    ensures { result ≡ wrong_count shape count }
{
    match shape {
        Shape::NumberAndThreeBytes => count != 3,
        Shape::NumberAndTwoBytes => count != 2,
        _ => count == 0,
    }
}

// Where something is not as a line expects it.
use crate::Name;
use crate::codes::{Address, Attention, Code, Sense};
use case_rooms::Difference;
use case_script::Line;
use case_script::class::Class;
use case_script::word::Word;
use std::fmt;

// One difference, for a line with its text and number: `line 9: status 02h, expected 00h`, `line 9: answer byte 18: 08h, expected 09h`.
#[derive(Clone, Copy)]
pub struct Differing<'a> {
    pub line: Line,
    pub text: &'a [u8],
    pub number: u64,
    pub difference: Difference,
}

impl fmt::Display for Differing<'_> {
    fn fmt<W: fmt::Write>(&self, f: &mut fmt::Formatter<W>) -> fmt::Result {
        let asked = Asked(*self);
        let Difference {
            what,
            at,
            found,
            expected,
        } = self.difference;
        write!(f, "line {}: ", self.number)?;
        match (what, self.line.word.class()) {
            (Word::Command, _) => write!(f, "answer byte {at} past the count was written"),
            (Word::LengthHead | Word::LengthElements | Word::LengthSearch, _) => {
                write!(
                    f,
                    "kept: {} length {found}, expected {expected}",
                    kept(what)
                )
            },
            (_, Class::Answer | Class::Table | Class::Kept) => {
                write!(
                    f,
                    "{asked} byte {at}: {}, expected {}",
                    Code(found),
                    Code(expected)
                )
            },
            _ => write!(
                f,
                "{asked} {}, expected {}",
                Value(what, found),
                Value(what, expected)
            ),
        }
    }
}

// The table whose bytes were not kept.
fn kept(what: Word) -> &'static str {
    match what {
        Word::Head | Word::LengthHead => "head",
        Word::Search | Word::LengthSearch => "search",
        _ => "elements",
    }
}

// What a line asks for: its word, and whose value that is.
#[derive(Clone, Copy)]
struct Asked<'a>(Differing<'a>);

impl fmt::Display for Asked<'_> {
    fn fmt<W: fmt::Write>(&self, f: &mut fmt::Formatter<W>) -> fmt::Result {
        let Differing {
            line,
            text,
            difference,
            ..
        } = self.0;
        let word = Name(text.get(line.from..line.to).unwrap_or(&[]));
        match line.word.class() {
            Class::Kept => write!(f, "kept: {}", kept(difference.what)),
            Class::Element => write!(f, "{word} {}", Address(line.first)),
            Class::Record => write!(f, "{word} {}", line.first),
            _ => write!(f, "{word}"),
        }
    }
}

// A value as the word that asks for it has it.
#[derive(Clone, Copy)]
struct Value(Word, u32);

impl fmt::Display for Value {
    fn fmt<W: fmt::Write>(&self, f: &mut fmt::Formatter<W>) -> fmt::Result {
        let n = self.1;
        match self.0 {
            Word::Sense => write!(f, "{}", Sense(n)),
            Word::Attention => write!(f, "{}", Attention(n)),
            Word::Source => write!(f, "{}", Address(n)),
            Word::Status | Word::Mask => write!(f, "{}", Code(n)),
            _ => write!(f, "{n}"),
        }
    }
}

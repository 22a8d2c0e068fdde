// The words of a line: where they begin and end, and the numbers, bytes and text that they write.
#![tactic(auto)]

pub mod bytes;
pub mod fault;
pub mod letters;
pub mod number;

ghost use Rattle.std.specs.Prelude.{◌≡◌, ◌≤◌, length, position};
ghost use Rattle.case_text.specs.Text.{blank, break, stops, first, same_word};

// What a search looks for: `#`, `*`, a blank, what is no blank, what stands between bytes, what does not.
#[derive(Clone, Copy, PartialEq, Eq)]
pub enum Sought {
    Hash,
    Star,
    Gap,
    Word,
    Break,
    Byte,
}

// Space, tab and carriage return.
#[tactic(auto, unfolding(crate::specs::Text::blank, rules::specs::Choice::when))]
pub fn is_blank(b: u8) -> bool
    ensures { result ≡ blank b }
{
    matches!(b, b' ' | b'\t' | b'\r')
}

// "with blanks or `/` between them"
#[tactic(auto, unfolding(rules::specs::Choice::when))]
fn is_break(b: u8) -> bool
    ensures { result ≡ break b }
{
    b == b'/' || is_blank(b)
}

// Whether a search stops at a byte. By a match, and not by a closure that each caller gives: the definitions `stops` and `first` name what is sought.
#[tactic(auto, unfolding(crate::specs::Text::stops))]
fn stops_at(what: Sought, b: u8) -> bool
    ensures { result ≡ stops what b }
{
    match what {
        Sought::Hash => b == b'#',
        Sought::Star => b == b'*',
        Sought::Gap => is_blank(b),
        Sought::Word => !is_blank(b),
        Sought::Break => is_break(b),
        Sought::Byte => !is_break(b),
    }
}

// The first place where the search stops, if it does.
fn stop_in(text: &[u8], what: Sought) -> Option<usize>
    ensures { result ≡ position (stops what) text.now }
{
    text.iter().position(|b| stops_at(what, *b))
}

// The first place from `from` on where the search stops, or the text's end.
#[tactic(auto, unfolding(crate::specs::Text::first))]
pub fn find(text: &[u8], from: usize, what: Sought) -> usize
    requires { from ≤ length text.now }
    ensures value { result ≡ first what text.now from }
    ensures lower_bound { (from ≤ result) × (result ≤ length text.now) }
{
    match stop_in(&text[from..], what) {
        Some(n) => from + n,
        None => text.len(),
    }
}

// Whether two words are the same, letter for letter. It stays, as `==`, for the edit `word_prefix_is_enough` and the definition `same_word`.
pub fn same(a: &[u8], b: &[u8]) -> bool
    ensures { result ≡ same_word a.now b.now }
{
    a == b
}

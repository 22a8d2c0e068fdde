// The line that begins a case, good or bad: its name.
ghost use Rattle.std.specs.Prelude.{◌≤◌, length, IfSome};

use case_text::{Sought, find, is_blank};

// All the words at the front of a text, without the blanks behind them. A `#` inside a word is of the word, so that a name that it cuts can be told whole.
fn words(text: &[u8]) -> &[u8] {
    let mut end = 0;
    let mut gap = true;
    for (i, byte) in text.iter().enumerate() {
        if is_blank(*byte) {
            gap = true;
        } else if gap && *byte == b'#' {
            break;
        } else {
            gap = false;
            end = i + 1;
        }
    }
    &text[..end]
}

// Where the first word of a text ends, if it is `case`.
fn behind_case(text: &[u8]) -> Option<usize>
    ensures { IfSome result (λ to. to ≤ length text.now) }
{
    let from = find(text, 0, Sought::Word);
    let to = find(text, from, Sought::Gap);
    (&text[from..to] == b"case".as_slice()).then_some(to)
}

// All the words behind `case`, if the line begins a case; there may be none.
pub fn name_in(line: &[u8]) -> Option<&[u8]> {
    let comment = find(line, 0, Sought::Hash);
    let to = behind_case(&line[..comment])?;
    let start = find(line, to, Sought::Word);
    Some(words(&line[start..]))
}

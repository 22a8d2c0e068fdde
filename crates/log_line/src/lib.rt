// A line of a recorded log: its fields, and the numbers and bytes that they write. Any bytes may be read, and each is read once.
#![tactic(auto)]

ghost use Rattle.std.specs.Prelude.{◌≡◌, ◌+◌, ◌*◌, ◌<◌, ◌≤◌, length};
ghost use Rattle.rules.specs.Log.{digit as digit_of, line_of};
ghost use Rattle.log_line.specs.Fields.{Numbered, Decoded, host_to};
ghost use Rattle.log_line.specs.Rungs.{here, first_line};
ghost use Rattle.log_line.specs.Read.{meant, Room, Within};

mod digits;

pub use digits::{DigitTable, tabulate};

// A line of the form, with its bytes at the front of two rooms, and its line feed at `end`.
#[derive(Clone, Copy, PartialEq, Eq)]
pub struct Entry {
    pub number: u32,
    pub host: u8,
    pub block: usize,
    pub list: usize,
    pub end: usize,
}

// The number that a text begins with, and where the tab behind it stands.
#[derive(Clone, Copy, PartialEq, Eq)]
struct Sequence {
    value: u32,
    end: usize,
}

const TAB: u8 = 9;

const LINE_FEED: u8 = 10;

const LARGEST: u64 = 999999999;

// The longest line, without its line feed.
const LONGEST: usize = 512;

// "sequence number (decimal, 1 to 999,999,999, no leading zero)", up to a tab.
fn number(digits: &DigitTable, text: &[u8]) -> Option<Sequence>
    ensures { Numbered text.now result }
{
    if text.starts_with(b"0") {
        return None;
    }
    let mut value: u64 = 0;
    for (end, b) in text.iter().enumerate() {
        let d = digits.value_of(*b);
        if 9 < d {
            if *b != TAB || value == 0 {
                return None;
            }
            return Some(Sequence {
                value: value as u32,
                end,
            });
        }
        value = value * 10 + u64::from(d);
        if LARGEST < value {
            return None;
        }
    }
    None
}

// "host or 0 (one digit)", up to a tab.
#[tactic(auto, using(rules::proofs::Ladder::ladder), unfolding(crate::specs::Fields::host_to, rules::specs::Bytes::byte))]
fn host(digits: &DigitTable, text: &[u8]) -> Option<u8>
    ensures { result ≡ host_to text.now }
{
    let [first, TAB, ..] = text else {
        return None;
    };
    let host = digits.value_of(*first);
    if 9 < host {
        return None;
    }
    Some(host)
}

// "in upper-case hexadecimal", up to a mark: where that stands, and the bytes to the front of `out`. A mark is no digit, so it is looked for only where a digit is missing.
fn decode(digits: &DigitTable, text: &[u8], mark: u8, out: &mut [u8]) -> Option<usize>
    requires { (15 < digit_of mark) × (length text.now ≤ 2 * length out.old + 1) }
    ensures { Decoded mark text.now out.new result }
{
    let pairs = text.len() / 2;
    for n in 0..pairs {
        let i = n * 2;
        let b = text[i];
        let high = digits.value_of(b);
        if 15 < high {
            return (b == mark).then_some(i);
        }
        let low = digits.value_of(text[i + 1]);
        if 15 < low {
            return None;
        }
        out[n] = high * 16 + low;
    }
    let end = pairs * 2;
    let b = *text.get(end)?;
    (b == mark).then_some(end)
}

// "four fields parted by tabs", and a line feed
fn fields(digits: &DigitTable, text: &[u8], block: &mut [u8], list: &mut [u8]) -> Option<Entry>
    requires { Room 0 text.now block.old list.old }
    ensures list_after { meant result block.new list.new ≡ here line_of text.now }
    ensures within { Within result 0 text.now block.new list.new }
{
    let first = number(digits, text)?;
    let host_at = first.end + 1;
    let host = host(digits, &text[host_at..])?;
    let at = host_at + 2;
    let command = decode(digits, &text[at..], TAB, block)?;
    let next = at + command + 1;
    let parameters = decode(digits, &text[next..], LINE_FEED, list)?;
    Some(Entry {
        number: first.value,
        host,
        block: command / 2,
        list: parameters / 2,
        end: next + parameters,
    })
}

// The line that a text begins with, "lines of at most 512 bytes and a line feed": no byte behind that is looked at.
pub fn read_line(
    digits: &DigitTable,
    text: &[u8],
    block: &mut [u8],
    list: &mut [u8],
) -> Option<Entry>
    requires { (256 ≤ length block.old) × (256 ≤ length list.old) }
    ensures list_after { meant result block.new list.new ≡ first_line text.now }
    ensures within { Within result 0 text.now block.new list.new }
{
    let reach = text.len().min(LONGEST + 1);
    fields(digits, &text[..reach], block, list)
}

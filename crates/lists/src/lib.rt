// RESERVE's parameter list: what each of its descriptors names, marked place by place, or why it is refused.
#![tactic(auto)]

ghost use Rattle.std.specs.Prelude.{◌≡◌, false, ◌+◌, ◌-◌, ◌<◌, ◌≤◌, eqb};
ghost use Rattle.rules.specs.Choice.{when, any_from, each};
ghost use Rattle.rules.specs.Tables.{most_elements};
ghost use Rattle.rules.specs.Holds.{descriptors, wrong_list_length};
ghost use Rattle.tables.specs.Ranges.{laid};
ghost use Rattle.lists.specs.Named.{looked_up, judged_at, marked, mark_at, Judging, Judged};

use order::Cause;
use tables::{Range, Types};

// The elements that a descriptor names: the first place, and the one behind the last.
#[derive(Clone, Copy)]
pub struct Span {
    pub first: usize,
    pub end: usize,
}

// How many descriptors a list holds.
#[tactic(auto, unfolding(rules::specs::Holds::descriptors))]
pub fn count(list: &[u8]) -> usize
    ensures { result ≡ descriptors list.now }
{
    list.len() / layout::DESCRIPTOR_SIZE
}

// "1 to 32 descriptors of 6 bytes"
#[tactic(auto, unfolding(rules::specs::Holds::wrong_list_length, rules::specs::Choice::any_of, rules::specs::Choice::when, rules::specs::Choice::differ))]
pub fn wrong_length(list: &[u8]) -> bool
    ensures { result ≡ wrong_list_length list.now }
{
    let n = list.len();
    n == 0
        || layout::MOST_DESCRIPTORS * layout::DESCRIPTOR_SIZE < n
        || n % layout::DESCRIPTOR_SIZE != 0
}

// "n elements in table order .. 0 meaning through the last": the place behind the last of them.
#[tactic(auto, unfolding(rules::specs::Choice::when))]
fn end_of(total: usize, first: usize, number: u16) -> usize
    requires first_le_total { first ≤ total }
    requires total_bound { total < 262144 }
    ensures { result ≡ first + when (eqb number 0) (total - first) number }
{
    if number == 0 {
        return total;
    }
    first + (number as usize)
}

// "reserved bytes before the address .. an unknown address or too many": here an address is looked up, once.
#[tactic(auto, unfolding(rules::specs::Holds::descriptors))]
fn look_up(runs: [Range; 4], list: &[u8], k: usize) -> Result<Span, Cause>
    requires { k < descriptors list.now }
    ensures { result ≡ looked_up (laid runs) list.now k }
{
    let d = reader::read_at(list, layout::DESCRIPTOR_SIZE * k);
    if d.reserved != 0 {
        return Err(Cause::ListField);
    }
    let Some(first) = tables::find(runs, d.address as u32, Types::Any) else {
        return Err(Cause::WrongAddress);
    };
    let total = tables::total(runs);
    let end = end_of(total, first, d.number);
    if total < end {
        return Err(Cause::WrongAddress);
    }
    Ok(Span { first, end })
}

// Whether one of the places is marked; where none is, each of them is from now on.
fn mark(marks: &mut [u8; layout::MOST_ELEMENTS], s: Span) -> bool
    requires first_le_end { s.first ≤ s.end }
    requires end_le_most_elements { s.end ≤ most_elements }
    ensures value { result ≡ any_from (marked marks.old) (s.end - s.first) s.first }
    ensures marks_after { result ≡ false → marks.new ≡ each mark_at (s.end - s.first) s.first marks.old }
{
    for p in s.first..s.end {
        if marks[p] != 0 {
            return true;
        }
        marks[p] = 1;
    }
    false
}

// The k-th descriptor, where those before it had no fault and what they name is marked: an element that is marked "is already specified in
// another element descriptor".
pub fn judge(
    runs: [Range; 4],
    list: &[u8],
    k: usize,
    marks: &mut [u8; layout::MOST_ELEMENTS],
) -> Result<Span, Cause>
    requires { Judging (laid runs) list.now k marks.old }
    ensures value { result ≡ judged_at (laid runs) list.now k }
    ensures judged { Judged (laid runs) list.now (k + 1) marks.new result }
{
    let span = look_up(runs, list, k)?;
    if mark(marks, span) {
        return Err(Cause::WrongAddress);
    }
    Ok(span)
}

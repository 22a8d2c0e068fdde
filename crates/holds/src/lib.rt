// RESERVE, RELEASE and PREVENT ALLOW from step 5 on: judged by reading only, then carried out.
#![tactic(auto)]

ghost use Rattle.std.specs.Prelude.{◌≡◌, List, ℕ, ◌+◌, ◌*◌, ◌<◌, ◌≤◌, length, OnOk};
ghost use Rattle.rules.specs.Choice.{any_from};
ghost use Rattle.rules.specs.Tables.{head_size, hosts, element_size, element_at, most_elements, places, lent, Rest};
ghost use Rattle.rules.specs.Order.{outcome, good};
ghost use Rattle.rules.specs.Holds.{descriptors, taken, reserve_unit, reserve, release_unit, release, new_mask, prevent};
ghost use Rattle.order.specs.Ending.{ended};
ghost use Rattle.tables.specs.Ranges.{laid};
ghost use Rattle.lists.specs.Named.{Marks};
ghost use Rattle.holds.specs.Judged.{taken_in, taken_of, elements_by, meaning, settled_at, settled, LaidOut, Bounded, Reservable};

use frees::Whose;
use lists::Span;
use order::{Cause, Refusal, Reply};
use tables::{Host, Range};

// Under whom elements are held: a host, by its number as in the table, and an id of its own.
#[derive(Clone, Copy)]
struct Claim {
    host: u8,
    id: u8,
}

// ---- what stands in the element table

// "held by another host, or by this host under another id"
#[tactic(auto, unfolding(rules::specs::Holds::taken, rules::specs::Order::other, rules::specs::Choice::any_of, rules::specs::Choice::all_of, rules::specs::Choice::when, rules::specs::Choice::differ))]
fn taken_at(elements: &[u8], claim: Claim, place: usize) -> bool
    requires { element_at place + element_size ≤ length elements.now }
    ensures { result ≡ taken elements.now claim.host claim.id place }
{
    let owner = tables::element::holder(elements, place);
    if owner == claim.host {
        return tables::element::id(elements, place) != claim.id;
    }
    owner != 0
}

// Outer loop over descriptors, inner over the elements that each of them names: the label leaves both at the first that is taken.
fn conflicts(elements: &[u8], claim: Claim, spans: &[Span]) -> bool
    requires { Bounded elements.now spans.now }
    ensures { result ≡ any_from (taken_of elements.now claim.host claim.id spans.now) (length spans.now) 0 }
{
    let mut conflict = false;
    'judged: for span in spans {
        for place in span.first..span.end {
            if taken_at(elements, claim, place) {
                conflict = true;
                break 'judged;
            }
        }
    }
    conflict
}

// ---- RESERVE of elements

// "a fault in any descriptor comes before 18h": one pass over the descriptors, which marks the places that they name and keeps where
// those of each begin and end.
fn judge_elements(
    runs: [Range; 4],
    elements: &[u8],
    claim: Claim,
    list: &[u8],
    marks: &mut [u8; layout::MOST_ELEMENTS],
) -> Result<(), Refusal>
    requires laid_out { LaidOut runs elements.now }
    requires marks { Marks (laid runs) list.now 0 marks.old }
    ensures value { result ≡ elements_by (laid runs) elements.now claim.host claim.id list.now }
    ensures grantable { OnOk result (Marks (laid runs) list.now (descriptors list.now) marks.new) }
{
    if lists::wrong_length(list) {
        return Err(Refusal::For(Cause::ListLength));
    }
    let n = lists::count(list);
    let mut spans = [Span { first: 0, end: 0 }; layout::MOST_DESCRIPTORS];
    for k in 0..n {
        spans[k] = lists::judge(runs, list, k, marks)?;
    }
    if conflicts(elements, claim, &spans[..n]) {
        return Err(Refusal::Conflict);
    }
    Ok(())
}

// An element is held if it is named, else freed if it is "this host's .. of that id".
#[tactic(auto, unfolding(crate::specs::Judged::settled_at, lists::specs::Named::marked, rules::specs::Choice::when, rules::specs::Choice::differ))]
fn settle(elements: &mut [u8], claim: Claim, place: usize, marks: &[u8; layout::MOST_ELEMENTS])
    requires element_size_in_bounds { element_at place + element_size ≤ length elements.old }
    requires place_lt_most_elements { place < most_elements }
    ensures { elements.new ≡ settled_at marks.now claim.host claim.id place elements.old }
{
    if marks[place] != 0 {
        tables::element::hold(elements, place, claim.host, claim.id);
    } else {
        frees::free_at(elements, Whose::Under(claim.host, claim.id), place);
    }
}

// "this host's old elements of that id are freed, then those named are held": both in one pass over the table.
fn grant(elements: &mut [u8], claim: Claim, marks: &[u8; layout::MOST_ELEMENTS])
    requires { places elements.old ≤ most_elements }
    ensures { elements.new ≡ settled marks.now claim.host claim.id elements.old }
{
    for place in 0..tables::element::places(elements) {
        settle(elements, claim, place, marks);
    }
}

fn reserve_elements(
    runs: [Range; 4],
    head: &mut [u8],
    elements: &mut [u8],
    host: u8,
    id: u8,
    list: &[u8],
) -> Reply
    requires head_long { head_size ≤ length head.old }
    requires host_known { host ≤ hosts }
    requires laid_out { LaidOut runs elements.old }
    ensures { (rest : Rest) (buffer : List ℕ) → ended result (lent head.new elements.new rest) buffer ≡ outcome (lent head.old elements.old rest) buffer (meaning (laid runs) host id list.now (elements_by (laid runs) elements.old host id list.now)) }
{
    let claim = Claim { host, id };
    let mut marks = [0u8; layout::MOST_ELEMENTS];
    match judge_elements(runs, elements, claim, list, &mut marks) {
        Ok(()) => {
            grant(elements, claim, &marks);
            order::good(head, host)
        }
        Err(why) => order::refused(head, host, why),
    }
}

// ---- the commands

// "refused 18h if another host holds any element, else the host holds the unit"
fn reserve_unit(head: &mut [u8], elements: &[u8], host: u8) -> Reply
    requires head_long { head_size ≤ length head.old }
    requires host_known { host ≤ hosts }
    ensures { (rest : Rest) (buffer : List ℕ) → ended result (lent head.new elements.now rest) buffer ≡ outcome (lent head.old elements.now rest) buffer (reserve_unit (lent head.old elements.now rest) host) }
{
    if order::any_other(elements, host) {
        return order::conflict(head, host);
    }
    let reply = order::good(head, host);
    tables::head::hold_unit(head, host);
    reply
}

pub fn reserve(
    runs: [Range; 4],
    head: &mut [u8],
    elements: &mut [u8],
    host: u8,
    block: &[u8; 6],
    list: &[u8],
) -> Reply
    requires head_long { head_size ≤ length head.old }
    requires host_known { host ≤ hosts }
    requires reservable { Reservable runs head.old elements.old }
    ensures { (rest : Rest) (buffer : List ℕ) → ended result (lent head.new elements.new rest) buffer ≡ outcome (lent head.old elements.old rest) buffer (reserve (lent head.old elements.old rest) host block.now list.now) }
{
    if block[1] % 2 == 0 {
        return reserve_unit(head, elements, host);
    }
    reserve_elements(runs, head, elements, host, block[2], list)
}

// "frees the unit, if held by this host, and all its elements"
fn release_unit(head: &mut [u8], elements: &mut [u8], host: u8) -> Reply
    requires head_long { head_size ≤ length head.old }
    requires host_known { host ≤ hosts }
    ensures { (rest : Rest) (buffer : List ℕ) → ended result (lent head.new elements.new rest) buffer ≡ outcome (lent head.old elements.old rest) buffer (good host (release_unit (lent head.old elements.old rest) host)) }
{
    let unit = tables::head::unit(head);
    let reply = order::good(head, host);
    frees::free(elements, Whose::Every(host));
    if unit == host {
        tables::head::hold_unit(head, 0);
    }
    reply
}

pub fn release(head: &mut [u8], elements: &mut [u8], host: u8, block: &[u8; 6]) -> Reply
    requires head_long { head_size ≤ length head.old }
    requires host_known { host ≤ hosts }
    ensures { (rest : Rest) (buffer : List ℕ) → ended result (lent head.new elements.new rest) buffer ≡ outcome (lent head.old elements.old rest) buffer (release (lent head.old elements.old rest) host block.now) }
{
    if block[1] % 2 == 0 {
        return release_unit(head, elements, host);
    }
    let number = block[2];
    frees::free(elements, Whose::Under(host, number));
    order::good(head, host)
}

// "byte 4 bit 0 sets or clears the host's mask bit"
#[tactic(auto, unfolding(rules::specs::Holds::new_mask, rules::specs::Choice::when, rules::specs::Bytes::byte))]
fn new_mask(mask: u8, host: Host, block: &[u8; 6]) -> u8
    ensures { result ≡ new_mask mask host.number block.now }
{
    if block[4] % 2 == 0 {
        return tables::mask::allowing(mask, host.number);
    }
    tables::mask::preventing(mask, host.number)
}

pub fn prevent_allow(head: &mut [u8], host: Host, block: &[u8; 6]) -> Reply
    requires head_long { head_size ≤ length head.old }
    ensures { (elements : List ℕ) (rest : Rest) (buffer : List ℕ) → ended result (lent head.new elements rest) buffer ≡ outcome (lent head.old elements rest) buffer (prevent (lent head.old elements rest) host.number block.now) }
{
    let mask = new_mask(tables::head::mask(head), host, block);
    let reply = order::good(head, host.number);
    tables::head::set_mask(head, mask);
    reply
}

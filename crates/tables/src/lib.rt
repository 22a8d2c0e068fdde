// The lent tables: the ranges of the head, handed about as one small table, and look-up by them. The fields of an element, those of the
// head and the prevent mask have modules of their own.
#![tactic(auto)]

pub mod element;
pub mod head;
pub mod mask;

ghost use Rattle.std.specs.Prelude.{◌≡◌, ◌+◌, ◌-◌, ◌<◌, ◌≤◌, true, length};
ghost use Rattle.rules.specs.Choice.{when};
ghost use Rattle.rules.specs.Tables.{head_size, hosts, volumes as volumesOf};
ghost use Rattle.rules.specs.Roster.{range, ranges as rangesOf, sorted as sortedOf, first_transport};
ghost use Rattle.tables.specs.Ranges.{meaning, meant, laid, inserted, lies, leads, Runs};
ghost use Rattle.tables.specs.LookUp.{admits, found, spot, spot_of};

// "each first address and count": of one type, by its code: the rules and the bytes of blocks and answers have that number, and 0 for no type.
#[derive(Clone, Copy)]
pub struct Range {
    pub kind: u8,
    pub first: u16,
    pub count: u16,
}

// An element's type and place.
#[derive(Clone, Copy)]
pub struct Spot {
    pub kind: u8,
    pub place: usize,
}

// Of which types an element is looked for: any, a transport, an import/export element.
#[derive(Clone, Copy, PartialEq, Eq)]
pub enum Types {
    Any,
    Transport,
    Port,
}

// A host that the unit knows: "1 to 8".
#[derive(Clone, Copy, PartialEq, Eq)]
pub struct Host {
    pub number: u8,
    ghost known: { (1 ≤ number) × (number ≤ hosts) },
}

// The tables that no command writes.
#[derive(Clone, Copy)]
pub struct Fixed<'a> {
    pub tags: &'a [u8],
    pub blank: &'a [u8],
    pub generations: &'a [u8],
    pub masks: &'a [u8],
}

// The k-th range of the head, from 0; it is of type k + 1.
fn range_at(head: &[u8], k: usize) -> Range
    requires head_size_in_bounds { head_size ≤ length head.now }
    requires k_bound { k < 4 }
    ensures { meaning result ≡ range head.now k }
{
    Range {
        kind: (k as u8) + 1,
        first: wire::word_at(head, layout::RANGE_SIZE * k),
        count: wire::word_at(head, layout::RANGE_SIZE * k + layout::RANGE_COUNT),
    }
}

// "in the order transport, storage, import/export, drive"
pub fn ranges(head: &[u8]) -> [Range; 4]
    requires { head_size ≤ length head.now }
    ensures { meant result ≡ rangesOf head.now }
{
    [
        range_at(head, 0),
        range_at(head, 1),
        range_at(head, 2),
        range_at(head, 3),
    ]
}

// The third range goes to its place, before or behind the fourth. Every index is a plain number, here and in the two functions below: the ranges then stay in
// registers and are not written to a table and read back.
fn insert_third(rs: [Range; 4]) -> [Range; 4]
    ensures { meant result ≡ inserted 2 (meant rs) }
{
    let a = rs[0];
    let b = rs[1];
    let c = rs[2];
    let d = rs[3];
    if c.first <= d.first {
        return [a, b, c, d];
    }
    [a, b, d, c]
}

// The second goes to its place among the last two, which are in order.
fn insert_second(rs: [Range; 4]) -> [Range; 4]
    ensures { meant result ≡ inserted 1 (meant rs) }
{
    let a = rs[0];
    let b = rs[1];
    let c = rs[2];
    let d = rs[3];
    if b.first <= c.first {
        return [a, b, c, d];
    }
    if b.first <= d.first {
        return [a, c, b, d];
    }
    [a, c, d, b]
}

// The first goes to its place among the last three, which are in order.
fn insert_first(rs: [Range; 4]) -> [Range; 4]
    ensures { meant result ≡ inserted 0 (meant rs) }
{
    let a = rs[0];
    let b = rs[1];
    let c = rs[2];
    let d = rs[3];
    if a.first <= b.first {
        return [a, b, c, d];
    }
    if a.first <= c.first {
        return [b, a, c, d];
    }
    if a.first <= d.first {
        return [b, c, a, d];
    }
    [b, c, d, a]
}

// The ranges by first address: the runs of the element table.
pub fn sorted(rs: [Range; 4]) -> [Range; 4]
    ensures { meant result ≡ sortedOf (meant rs) }
{
    insert_first(insert_second(insert_third(rs)))
}

// The runs of the head's ranges.
pub fn runs(head: &[u8]) -> [Range; 4]
    requires { head_size ≤ length head.now }
    ensures { Runs result head.now }
{
    sorted(ranges(head))
}

// How many elements the runs hold.
pub fn total(runs: [Range; 4]) -> usize
    ensures value { result ≡ length (laid runs) }
    ensures upper_bound { result < 262144 }
{
    let a = runs[0];
    let b = runs[1];
    let c = runs[2];
    let d = runs[3];
    (a.count as usize) + (b.count as usize) + (c.count as usize) + (d.count as usize)
}

// An address lies in a range. What it is behind the first one wraps where it is before it, and is then more than any count: one test does for both ends.
pub fn lies_in(r: Range, address: u32) -> bool
    ensures { result ≡ lies (meaning r) address }
{
    let first = r.first as u32;
    let count = r.count as u32;
    let within = address.wrapping_sub(first);
    within < count
}

// The element at an address that lies in a run, behind the places that are passed.
fn spot_in(r: Range, address: u32, passed: usize) -> Spot
    requires address_value { lies (meaning r) address ≡ true }
    requires passed_bound { passed ≤ 196605 }
    ensures { result ≡ spot r.kind (passed + (address - r.first)) }
{
    let within = address - (r.first as u32);
    Spot {
        kind: r.kind,
        place: passed + (within as usize),
    }
}

// Type and place of an address: those of the first run in which it lies; type 0, behind the last place, where it lies in none. Every index is a plain
// number, here and in `first_transport`: see `insert_third`.
pub fn spot_of(runs: [Range; 4], address: u32) -> Spot
    ensures { result ≡ spot_of (laid runs) address }
{
    let a = runs[0];
    if lies_in(a, address) {
        return spot_in(a, address, 0);
    }
    let one = a.count as usize;
    let b = runs[1];
    if lies_in(b, address) {
        return spot_in(b, address, one);
    }
    let two = one + (b.count as usize);
    let c = runs[2];
    if lies_in(c, address) {
        return spot_in(c, address, two);
    }
    let three = two + (c.count as usize);
    let d = runs[3];
    if lies_in(d, address) {
        return spot_in(d, address, three);
    }
    Spot {
        kind: 0,
        place: three + (d.count as usize),
    }
}

// An element of this type is looked for.
fn admits(types: Types, kind: u8) -> bool
    ensures { result ≡ admits types kind }
{
    match types {
        Types::Any => kind != 0,
        Types::Transport => kind == layout::TRANSPORT,
        Types::Port => kind == layout::PORT,
    }
}

// The place of an element of a type, if it is one of those looked for.
fn pick(types: Types, kind: u8, place: usize) -> Option<usize>
    ensures { result ≡ when (admits types kind) (Some place) None }
{
    if admits(types, kind) {
        return Some(place);
    }
    None
}

// The place of an address, if the element there is of these types.
pub fn find(runs: [Range; 4], address: u32, types: Types) -> Option<usize>
    ensures { result ≡ found types (laid runs) address }
{
    let s = spot_of(runs, address);
    pick(types, s.kind, s.place)
}

// The range holds transports.
fn leads(r: Range) -> bool
    ensures { result ≡ leads (meaning r) }
{
    r.kind == layout::TRANSPORT && r.count != 0
}

// "Transport 0 means the lowest-addressed one": its address; 0 where there is none.
pub fn first_transport(runs: [Range; 4]) -> u16
    ensures { result ≡ first_transport (laid runs) }
{
    let a = runs[0];
    if leads(a) {
        return a.first;
    }
    let b = runs[1];
    if leads(b) {
        return b.first;
    }
    let c = runs[2];
    if leads(c) {
        return c.first;
    }
    let d = runs[3];
    if leads(d) {
        return d.first;
    }
    0
}

// "Tags, 36 bytes for each volume number 1 to V": V.
pub fn volumes(tags: &[u8]) -> usize
    ensures { result ≡ volumesOf tags.now }
{
    tags.len() / layout::TAG_SIZE
}

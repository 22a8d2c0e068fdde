// Listings: of the elements that are marked those chosen, counted range by range, and what of their pages is returned. READ ELEMENT STATUS is the
// listing of all.
#![tactic(auto)]

ghost use Rattle.std.specs.Prelude.{◌≡◌, ◌+◌, ◌*◌, ◌≤◌, ◌<◌, length};
ghost use Rattle.rules.specs.Bytes.{put, cut};
ghost use Rattle.rules.specs.Tables.{head_size, hosts, Tables, Rest, element_at, lent};
ghost use Rattle.rules.specs.Order.{outcome, fits};
ghost use Rattle.rules.specs.Listing.{header, read_status};
ghost use Rattle.rules.specs.Ranges.{Each, total};
ghost use Rattle.tables.specs.Ranges.{meaning, meant};
ghost use Rattle.order.specs.Ending.{ended, Lends};
ghost use Rattle.pages.specs.Pages.{stock, page_bytes};
ghost use Rattle.pages.specs.Subject.{tables_of};
ghost use Rattle.listing.specs.Plan.{suits, skips, fits_in, room_behind};
ghost use Rattle.listing.specs.Counting.{Inside, Listable, Readable, Answers, Small, asked, reply_of, chosen_at, part_of, lead_of, next_of, step_by, step_of, step_bytes, counted, added, outset, Within, listed, passed as passed_by};

use order::{House, Reply, Status};
use pages::{Page, Slot, Stock};
use tables::Range;

// What a host asks for: tags, type code, start; and the action that the header tells, which READ ELEMENT STATUS has none of. The rules and the block have 0 for every type, the
// header 0 for no action.
#[derive(Clone, Copy)]
pub struct Query {
    pub tagged: bool,
    pub code: u8,
    pub start: u16,
    pub action: u8,
}

// How far a listing goes: how many elements it may choose, the room for its bytes, and the address before which all ends that was told before.
#[derive(Clone, Copy)]
pub struct Limits {
    pub most: u16,
    pub room: usize,
    pub from: usize,
}

// Where a listing stands between two ranges: the place of the next element, how many may still be chosen, the room that is left and where
// the next byte goes; and so far the number chosen, the bytes of all their pages, the first address chosen and the one behind the last told whole.
// How large these may be, `Within`, hangs on how many ranges were counted, so it is a clause and no field.
#[derive(Clone, Copy)]
pub struct Tally {
    pub place: usize,
    pub left: usize,
    pub room: usize,
    pub at: usize,
    pub number: usize,
    pub total: usize,
    pub first: usize,
    pub next: usize,
}

// What is chosen of a range: how many, how many of those fit, and how far the range reaches to the first chosen and to the last that fits.
#[derive(Clone, Copy, Default)]
pub struct Part {
    pub n: usize,
    pub m: usize,
    pub lead: usize,
    pub run: usize,
}

// What a listing hands back, how many bytes or why none, and the address behind the last element that it tells whole.
#[derive(Clone, Copy)]
pub struct Told {
    pub count: Result<u32, House>,
    pub next: usize,
}

// ---- counting

// The bytes of a page header and m descriptors; of none, none.
fn page_bytes(tagged: bool, m: usize) -> usize
    requires { m < 65536 }
    ensures { result ≡ page_bytes tagged m }
{
    if m == 0 {
        return 0;
    }
    pages::HEADER + m * pages::width(tagged)
}

// How many of the n elements of a page fit in room, its header with the first. Mostly all do, and a division takes as long as all the rest of this.
fn fit(tagged: bool, room: usize, n: usize) -> usize
    requires { n < 65536 }
    ensures { result ≡ fits_in tagged room n }
{
    let w = pages::width(tagged);
    if room < pages::HEADER + w {
        return 0;
    }
    if page_bytes(tagged, n) <= room {
        return n;
    }
    (room - pages::HEADER) / w
}

// The room behind a page: none where some of it had no room.
#[tactic(auto, unfolding(crate::specs::Plan::room_behind, rules::specs::Choice::when))]
fn rest(tagged: bool, room: usize, n: usize, m: usize) -> usize
    requires { m < 65536 }
    ensures { result ≡ room_behind tagged room n m }
{
    if m == n {
        return room.saturating_sub(page_bytes(tagged, m));
    }
    0
}

// The first address chosen, once n more are chosen from an address on.
#[tactic(auto, unfolding(crate::specs::Counting::lead_of, rules::specs::Choice::when))]
fn lead(number: usize, n: usize, address: usize, first: usize) -> usize
    ensures { result ≡ lead_of number n address first }
{
    match (number, n) {
        (0, 0) => 0,
        (0, _) => address,
        _ => first,
    }
}

// The address behind the last that is told whole, once the m more that fit end before an address.
#[tactic(auto, unfolding(crate::specs::Counting::next_of, rules::specs::Choice::when))]
fn behind(m: usize, address: usize, next: usize) -> usize
    ensures { result ≡ next_of m address next }
{
    if m == 0 { next } else { address }
}

impl Query {
    // "type (0 all ..)"
    #[tactic(auto, unfolding(crate::specs::Plan::suits, rules::specs::Choice::any_of, rules::specs::Choice::when))]
    fn asks_for(self, kind: u8) -> bool
        ensures { result ≡ suits self.code kind }
    {
        self.code == 0 || self.code == kind
    }

    // How many of a range stand below start, if it reaches there.
    fn skip(self, r: Range) -> usize
        ensures { result ≡ skips self.start (meaning r) }
    {
        self.start.saturating_sub(r.first) as usize
    }

    // How many of a range are chosen, of those that are marked: "elements of the type at or above start, ascending, at most that many".
    fn pick(self, marks: &[u8], s: Tally, r: Range) -> usize
        requires { s.place ≤ 3 * 65536 }
        ensures { result ≡ chosen_at marks.now self s (meaning r) }
    {
        if self.asks_for(r.kind) {
            let skip = self.skip(r);
            let n = (r.count as usize).saturating_sub(skip);
            return s.left.min(pages::marks::count(marks, s.place + skip, n));
        }
        0
    }

    // What is chosen of a range, and what of that fits; where none is chosen, the first is not looked for.
    fn choose(self, marks: &[u8], s: Tally, r: Range) -> Part
        requires { s.place ≤ 3 * 65536 }
        ensures { result ≡ part_of marks.now self s (meaning r) }
    {
        let n = self.pick(marks, s, r);
        if n == 0 {
            return Part::default();
        }
        let m = fit(self.tagged, s.room, n);
        let skip = self.skip(r);
        let place = s.place + skip;
        let count = (r.count as usize).saturating_sub(skip);
        let lead = pages::marks::reach(marks, place, count, 1);
        let run = pages::marks::reach(marks, place, count, m);
        Part { n, m, lead, run }
    }
}

impl Tally {
    // Before the first range, behind the header.
    fn begin(limits: Limits) -> Tally
        ensures { result ≡ outset limits.most limits.room limits.from }
    {
        Tally {
            place: 0,
            left: limits.most as usize,
            room: limits.room.saturating_sub(pages::HEADER),
            at: pages::HEADER,
            number: 0,
            total: 0,
            first: 0,
            next: limits.from,
        }
    }

    // Counts a range of which a part is chosen.
    fn step(self, q: Query, r: Range, p: Part) -> Tally
        requires inside { Inside (meaning r) }
        requires within { Within 3 self × Small self p }
        ensures { result ≡ step_by q self (meaning r) p }
    {
        let start = r.first as usize + q.skip(r);
        Tally {
            place: self.place + r.count as usize,
            left: self.left.saturating_sub(p.n),
            room: rest(q.tagged, self.room, p.n, p.m),
            at: self.at + page_bytes(q.tagged, p.m),
            number: self.number + p.n,
            total: self.total + page_bytes(q.tagged, p.n),
            first: lead(
                self.number,
                p.n,
                (start + p.lead).saturating_sub(1),
                self.first,
            ),
            next: behind(p.m, start + p.run, self.next),
        }
    }
}

// Counts the four ranges. That they lie inside stays a clause: the array is the one that `tables::runs` makes for every command.
fn count(q: Query, marks: &[u8], s: Tally, rs: [Range; 4]) -> Tally
    requires each { Each Inside (meant rs) }
    requires within { Within 0 s }
    ensures { result ≡ counted marks.now q s (meant rs) }
{
    let mut x = s;
    for r in rs {
        x = x.step(q, r, q.choose(marks, x, r));
    }
    x
}

// ---- writing

// Writes what a range of which a part is chosen adds, at its stand.
fn put_range(answer: &mut [u8], stock: Stock<'_>, q: Query, s: Tally, r: Range, p: Part)
    requires r_in_bounds { (step_of stock.marks.now q s (meaning r)).at ≤ length answer.old }
    requires inside { Inside (meaning r) × Within 3 s }
    requires p_value { p ≡ part_of stock.marks.now q s (meaning r) }
    requires count_in_bounds { element_at (s.place + r.count) ≤ length stock.elements.now }
    ensures { answer.new ≡ put answer.old s.at (step_bytes stock.entry.marks.now q (tables_of stock.entry) s (meaning r)) }
{
    if p.m == 0 {
        return;
    }
    let skip = q.skip(r);
    let first = Slot {
        kind: r.kind,
        address: r.first as usize + skip,
        place: s.place + skip,
    };
    let page = Page {
        tagged: q.tagged,
        first,
        run: p.run,
        n: p.n,
        m: p.m,
    };
    stock.put_page(answer, s.at, page);
}

// Writes what the four ranges add: without room, as where only the header is asked for, nothing.
fn put_ranges(answer: &mut [u8], stock: Stock<'_>, q: Query, s: Tally, rs: [Range; 4])
    requires rs_in_bounds { (counted stock.marks.now q s (meant rs)).at ≤ length answer.old }
    requires each { Each Inside (meant rs) × Within 0 s }
    requires rs_in_bounds_2 { element_at (s.place + total (meant rs)) ≤ length stock.elements.now }
    ensures { answer.new ≡ put answer.old s.at (added stock.entry.marks.now q (tables_of stock.entry) s (meant rs)) }
{
    if s.room == 0 {
        return;
    }
    let mut x = s;
    for r in rs {
        let p = q.choose(stock.marks, x, r);
        put_range(answer, stock, q, x, r, p);
        x = x.step(q, r, p);
    }
}

// "below 8, the first allocation bytes of the header"
fn shortened(answer: &mut [u8], allocation: usize, action: u8, x: Tally) -> Result<u32, House>
    requires { Within 4 x }
    ensures { Answers (cut allocation (header x.first x.number action x.total)) answer.old answer.new (reply_of result) }
{
    let n = allocation.min(pages::HEADER);
    if answer.len() < n {
        return Err(House::ShortBuffer);
    }
    let mut h = [0u8; pages::HEADER];
    pages::header(&mut h, x.first, x.number, action, x.total);
    wire::copy(answer, &h[..n]);
    Ok(n as u32)
}

// "else the header and as many whole descriptors as fit": counted, and refused where the answer is too short, before a byte is written.
pub fn list(answer: &mut [u8], stock: Stock<'_>, q: Query, limits: Limits, rs: [Range; 4]) -> Told
    requires near { limits.from ≤ 65536 }
    requires listable { Listable (meant rs) (tables_of stock) }
    ensures answers { Answers (listed stock.entry.marks.now q (tables_of stock.entry) (meant rs) limits.most limits.room) answer.old answer.new (reply_of result.count) }
    ensures next_value { (result.next ≡ passed_by stock.entry.marks.now q (tables_of stock.entry) (meant rs) limits.most limits.room limits.from) × (result.next ≤ 65536) }
{
    let room = limits.room;
    let s = Tally::begin(limits);
    let x = count(q, stock.marks, s, rs);
    let next = x.next;
    if room < pages::HEADER {
        return Told {
            count: shortened(answer, room, q.action, x),
            next,
        };
    }
    let end = x.at;
    if answer.len() < end {
        return Told {
            count: Err(House::ShortBuffer),
            next,
        };
    }
    pages::header(answer, x.first, x.number, q.action, x.total);
    put_ranges(answer, stock, q, s, rs);
    Told {
        count: Ok(end as u32),
        next,
    }
}

// The address behind the last element that such a listing tells whole: counted, with nothing written.
pub fn passed(marks: &[u8], q: Query, limits: Limits, rs: [Range; 4]) -> usize
    requires near { limits.from ≤ 65536 }
    requires each { Each Inside (meant rs) }
    ensures value { (t : Tables) → Listable (meant rs) t → result ≡ passed_by marks.now q t (meant rs) limits.most limits.room limits.from }
    ensures upper_bound { result ≤ 65536 }
{
    count(q, marks, Tally::begin(limits), rs).next
}

// ---- the command, from step 5 on

// "byte 1 bit 4 tags, bits 0-3 type .., 2-3 start"; a search has the same bytes
#[tactic(auto, unfolding(rules::specs::Listing::with_tags, rules::specs::Listing::type_code, rules::specs::Bytes::byte))]
pub fn query_of(block: &[u8; 12], action: u8) -> Query
    ensures { result ≡ asked block.now action }
{
    let options = block[1];
    Query {
        tagged: options / 16 % 2 == 1,
        code: options % 16,
        start: wire::word_at(block, 2),
        action,
    }
}

// READ ELEMENT STATUS for tables that can be listed by their runs, as sound ones can.
pub fn read_element_status(
    runs: [Range; 4],
    head: &mut [u8],
    elements: &[u8],
    tags: &[u8],
    blank: &[u8],
    host: u8,
    block: &[u8; 12],
    answer: &mut [u8],
) -> Reply
    requires head_long { head_size ≤ length head.old }
    requires host_known { host ≤ hosts }
    requires readable { Readable runs head.old (stock elements.now tags.now blank.now) }
    ensures { (rest : Rest) → Lends rest tags.now blank.now → ended result (lent head.new elements.now rest) answer.new ≡ outcome (lent head.old elements.now rest) answer.old (fits answer.old (read_status (lent head.old elements.now rest) host block.now)) }
{
    let q = query_of(block, 0);
    let limits = Limits {
        most: wire::word_at(block, 4),
        room: wire::triple_at(block, 7) as usize,
        from: 0,
    };
    let stock = Stock {
        elements,
        tags,
        blank,
        marks: &[],
    };
    match list(answer, stock, q, limits, runs).count {
        Ok(count) => {
            tables::head::wipe(head, host);
            order::told(Status::Good, count)
        }
        Err(why) => order::numbered(why),
    }
}

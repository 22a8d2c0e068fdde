// MODE SENSE: the geometry pages of document 001, and the command from step 5 on. "what holds of cutting is shown once for all pages": the whole answer is
// made, and its first bytes are returned.
#![tactic(auto)]

ghost use Rattle.std.specs.Prelude.{◌≡◌, false, List, ℕ, ◌+◌, ◌*◌, ◌≤◌, ◌<◌, Ok, length};
ghost use Rattle.rules.specs.Bytes.{put};
ghost use Rattle.rules.specs.Tables.{head_size, hosts, lent, Rest};
ghost use Rattle.rules.specs.Roster.{range, ranges};
ghost use Rattle.rules.specs.Order.{outcome, fits};
ghost use Rattle.rules.specs.Mode.{page_code, paged, assigned, assignments, members, capabilities as capabilitiesOf, sought as soughtOf, known_page, mode_whole, no_answer, mode_sense};
ghost use Rattle.order.specs.Ending.{ended};
ghost use Rattle.mode.specs.Judged.{kinds as kindsOf, piece, bytes_of, most, meaning, mode_by, Within};

use order::{House, Reply, Status};

// "pages 1Dh, 1Eh, 1Fh and 3Fh for all"
const ADDRESSES: u8 = 0x1D;

const GEOMETRY: u8 = 0x1E;

const CAPABILITIES: u8 = 0x1F;

const ALL_PAGES: u8 = 0x3F;

// "Over 256 bytes before cutting gives 5/24/00"
const MOST: usize = 256;

// The mode header; the code and the length of a page; what follows them in the pages of fixed length.
const HEADER: usize = 4;

const PAGE_HEADER: usize = 2;

const FIXED: usize = 18;

// "shelves, slots and drives store and exchange with each other and their own kind, transports don't": bit 0 is for transports, 1 for storage, 2 for
// import/export, 3 for drives.
const THESE: u8 = 0x0E;

const NONE: u8 = 0x00;

// ---- which pages

// Byte 2 without the page control.
fn page_code(block: &[u8; 6]) -> u8
    ensures { result ≡ page_code block.now }
{
    block[2] % 64
}

#[tactic(auto, using(rules::proofs::Rungs::rungs), unfolding(rules::specs::Mode::known_page))]
fn known(code: u8) -> bool
    ensures { result ≡ known_page code }
{
    matches!(code, ADDRESSES | GEOMETRY | CAPABILITIES | ALL_PAGES)
}

// A page is asked for by its code, or with all.
#[tactic(auto, using(rules::proofs::Rungs::rungs), unfolding(rules::specs::Mode::sought))]
fn sought(code: u8, page: u8) -> bool
    ensures { result ≡ soughtOf code page }
{
    code == page || code == ALL_PAGES
}

fn transports(head: &[u8]) -> usize
    requires head_long { head_size ≤ length head.now }
    ensures value { result ≡ (range head.now 0).count }
    ensures upper_bound { result < 65536 }
{
    wire::word_at(head, layout::RANGE_COUNT) as usize
}

// ---- how many bytes

// The bytes of a page that has so many behind its header; of one that is not asked for, none.
fn bytes_of(code: u8, page: u8, n: usize) -> usize
    requires { n < 131072 }
    ensures { result ≡ bytes_of code page n }
{
    if sought(code, page) {
        return PAGE_HEADER + n;
    }
    0
}

// The bytes of the whole answer.
fn whole_bytes(head: &[u8], code: u8) -> usize
    requires head_long { head_size ≤ length head.now }
    ensures { result ≡ length (mode_whole head.now code) }
{
    let a = bytes_of(code, ADDRESSES, FIXED);
    let g = bytes_of(code, GEOMETRY, 2 * transports(head));
    let c = bytes_of(code, CAPABILITIES, FIXED);
    HEADER + a + g + c
}

// "other page controls and pages", and an answer too long: what step 4 asks.
pub fn no_answer(head: &[u8], block: &[u8; 6]) -> bool
    requires head_long { head_size ≤ length head.now }
    ensures { result ≡ no_answer head.now block.now }
{
    if block[2] / 64 != 0 {
        return true;
    }
    let code = page_code(block);
    if known(code) {
        return MOST < whole_bytes(head, code);
    }
    true
}

// ---- the pages, each written from a place on

// 001, table 33: of the k-th type the first address and the number.
fn assign(d: &mut [u8], at: usize, head: &[u8], k: usize)
    requires head_long { head_size ≤ length head.now }
    requires room { (at + 4 ≤ length d.old) × (k < 4) }
    ensures { d.new ≡ put d.old at (assigned (range head.now k)) }
{
    let first = wire::word_at(head, layout::RANGE_SIZE * k);
    let count = wire::word_at(head, layout::RANGE_SIZE * k + layout::RANGE_COUNT);
    wire::put_word(d, at, first);
    wire::put_word(d, at + 2, count);
}

// 001, table 33: all four, then two reserved bytes.
fn addresses(d: &mut [u8], at: usize, head: &[u8])
    requires head_long { head_size ≤ length head.now }
    requires room { at + 20 ≤ length d.old }
    ensures { d.new ≡ put d.old at (paged 0x1D (assignments (ranges head.now))) }
{
    wire::put(d, at, [ADDRESSES, FIXED as u8]);
    assign(d, at + 2, head, 0);
    assign(d, at + 6, head, 1);
    assign(d, at + 10, head, 2);
    assign(d, at + 14, head, 3);
    wire::put(d, at + 18, [0, 0]);
}

// 001, table 35: "one robotics set without rotation", whose first member has number 0.
fn arms(d: &mut [u8], at: usize, n: usize)
    requires { (at + 2 * n ≤ length d.old) × (n < 128) }
    ensures { d.new ≡ put d.old at (members n 0) }
{
    for i in 0..n {
        wire::put(d, at + 2 * i, [0, i as u8]);
    }
}

// 001, table 34.
fn geometry(d: &mut [u8], at: usize, n: usize)
    requires { (at + 2 + 2 * n ≤ length d.old) × (n < 128) }
    ensures { d.new ≡ put d.old at (paged 0x1E (members n 0)) }
{
    wire::put(d, at, [GEOMETRY, (2 * n) as u8]);
    arms(d, at + PAGE_HEADER, n);
}

// 001, table 32: to which types a transport, a shelf, a slot and a drive move or with which they exchange, then four reserved bytes.
fn kinds(d: &mut [u8], at: usize)
    requires { at + 8 ≤ length d.old }
    ensures { d.new ≡ put d.old at kindsOf }
{
    wire::put(d, at, [NONE, THESE, THESE, THESE, 0, 0, 0, 0]);
}

// 001, table 32: which types store, a reserved byte, the moves, the exchanges.
fn capabilities(d: &mut [u8], at: usize)
    requires { at + 20 ≤ length d.old }
    ensures { d.new ≡ put d.old at (paged 0x1F capabilitiesOf) }
{
    wire::put(d, at, [CAPABILITIES, FIXED as u8, THESE, 0]);
    kinds(d, at + 4);
    kinds(d, at + 12);
}

// ---- the answer

// Each page, if it is asked for; hands back the place behind it. The three differ in what they write from: a closure for that would leave nothing else in one.
fn with_addresses(d: &mut [u8], at: usize, head: &[u8], code: u8) -> usize
    requires head_long { head_size ≤ length head.now }
    requires room { at + bytes_of code 0x1D 18 ≤ length d.old }
    ensures d_after { d.new ≡ put d.old at (piece code 0x1D (assignments (ranges head.now))) }
    ensures value { result ≡ at + bytes_of code 0x1D 18 }
{
    if sought(code, ADDRESSES) {
        addresses(d, at, head);
        return at + (PAGE_HEADER + FIXED);
    }
    at
}

fn with_geometry(d: &mut [u8], at: usize, n: usize, code: u8) -> usize
    requires { (at + bytes_of code 0x1E (2 * n) ≤ length d.old) × (bytes_of code 0x1E (2 * n) ≤ most) }
    ensures d_after { d.new ≡ put d.old at (piece code 0x1E (members n 0)) }
    ensures value { result ≡ at + bytes_of code 0x1E (2 * n) }
{
    if sought(code, GEOMETRY) {
        geometry(d, at, n);
        return at + (PAGE_HEADER + 2 * n);
    }
    at
}

fn with_capabilities(d: &mut [u8], at: usize, code: u8)
    requires { at + bytes_of code 0x1F 18 ≤ length d.old }
    ensures { d.new ≡ put d.old at (piece code 0x1F capabilitiesOf) }
{
    if sought(code, CAPABILITIES) {
        capabilities(d, at);
    }
}

// The header and the pages, by rising code.
fn whole(d: &mut [u8; MOST], head: &[u8], code: u8)
    requires head_long { head_size ≤ length head.now }
    requires short { length (mode_whole head.now code) ≤ most }
    ensures { d.new ≡ put d.old 0 (mode_whole head.now code) }
{
    let n = whole_bytes(head, code);
    wire::put(d, 0, [(n - 1) as u8, 0, 0, 0]);
    let g = with_addresses(d, HEADER, head, code);
    let c = with_geometry(d, g, transports(head), code);
    with_capabilities(d, c, code);
}

// ---- the command

// Judged by reading only: the answer buffer has room for so many bytes.
fn judge(head: &[u8], code: u8, allocation: u8, room: usize) -> Result<usize, House>
    requires head_long { head_size ≤ length head.now }
    ensures value { result ≡ mode_by head.now code allocation room }
    ensures within { Within head.now code room result }
{
    let count = (allocation as usize).min(whole_bytes(head, code));
    if room < count {
        return Err(House::ShortBuffer);
    }
    Ok(count)
}

// The first so many bytes of the whole answer; the sense is cleared.
fn tell(head: &mut [u8], host: u8, code: u8, answer: &mut [u8], count: usize) -> Reply
    requires head_long { head_size ≤ length head.old }
    requires host_known { host ≤ hosts }
    requires code_len_bound { length (mode_whole head.old code) ≤ most }
    requires count_in_bounds { (count ≤ length (mode_whole head.old code)) × (count ≤ length answer.old) }
    ensures { (elements : List ℕ) (rest : Rest) → ended result (lent head.new elements rest) answer.new ≡ outcome (lent head.old elements rest) answer.old (meaning head.old host code (Ok count)) }
{
    let mut bytes = [0u8; MOST];
    whole(&mut bytes, head, code);
    wire::copy(answer, &bytes[..count]);
    tables::head::wipe(head, host);
    order::told(Status::Good, count as u32)
}

// MODE SENSE, from step 5 on: the bytes are counted before one is written, and house number 5 leaves all as it was.
pub fn mode_sense(head: &mut [u8], host: u8, block: &[u8; 6], answer: &mut [u8]) -> Reply
    requires head_long { head_size ≤ length head.old }
    requires host_known { host ≤ hosts }
    requires answered { no_answer head.old block.now ≡ false }
    ensures { (elements : List ℕ) (rest : Rest) → ended result (lent head.new elements rest) answer.new ≡ outcome (lent head.old elements rest) answer.old (fits answer.old (mode_sense (lent head.old elements rest) host block.now)) }
{
    let code = page_code(block);
    match judge(head, code, block[4], answer.len()) {
        Ok(count) => tell(head, host, code, answer, count),
        Err(why) => order::numbered(why),
    }
}

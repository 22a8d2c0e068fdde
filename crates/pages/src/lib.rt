// The bytes of a listing: descriptors, pages of them, and the header, each written to the front of the slice that is lent for it.
#![tactic(auto)]

pub mod marks;
pub mod subject;

ghost use Rattle.std.specs.Prelude.{◌≡◌, ◌++◌, ◌+◌, ◌*◌, ◌≤◌, ◌<◌, length};
ghost use Rattle.rules.specs.Choice.{when};
ghost use Rattle.rules.specs.Bytes.{put};
ghost use Rattle.rules.specs.Tables.{element_at, element_size, tag_size};
ghost use Rattle.rules.specs.Roster.{port};
ghost use Rattle.rules.specs.Listing.{flags as flags_of, source_stands, label as label_of, front as frontOf, four_zeros, descriptor, width as width_of, page_header, header as header_of};
ghost use Rattle.pages.specs.Marks.{marks_in, marked_of};
ghost use Rattle.pages.specs.Pages.{descriptors, page_bytes, shown};
ghost use Rattle.pages.specs.Subject.{tables_of, slot_of, marked_from};

pub use subject::{Page, Slot, Stock};

// The header of a listing, and that of a page.
pub const HEADER: usize = 8;

// "Descriptor, 16 bytes or 52": where the label begins and ends in one with tags, and the four 0 behind.
const FRONT: usize = 12;

const PLAIN: usize = FRONT + 4;

const LABEL_END: usize = FRONT + layout::TAG_SIZE;

const TAGGED: usize = LABEL_END + 4;

// ---- a descriptor

// "80h if a source stands, else 0"
#[tactic(auto, unfolding(rules::specs::Listing::source_stands, rules::specs::Choice::when))]
fn stands(source: u16) -> u8
    ensures { result ≡ source_stands source }
{
    if source == 0 { 0 } else { 0x80 }
}

// "address; flags; six 0; 80h if a source stands, else 0; source"
#[tactic(auto, unfolding(rules::specs::Bytes::put, rules::specs::Listing::front))]
fn front(d: &mut [u8], address: usize, flags: u8, source: u16)
    requires { (12 ≤ length d.old) × (address < 65536) }
    ensures { d.new ≡ put d.old 0 (frontOf address flags source) }
{
    wire::put_word(d, 0, address as u16);
    wire::put(d, 2, [flags, 0, 0, 0, 0, 0, 0, stands(source)]);
    wire::put_word(d, 10, source);
}

// A descriptor of 16 bytes, which ends with "four 0".
fn without_label(d: &mut [u8], address: usize, flags: u8, source: u16)
    requires { (16 ≤ length d.old) × (address < 65536) }
    ensures { d.new ≡ put d.old 0 (frontOf address flags source ++ four_zeros) }
{
    front(d, address, flags, source);
    wire::put(d, FRONT, [0; 4]);
}

// A descriptor of 52 bytes. The label goes by way of an array, which compiles to three moves.
fn with_label(d: &mut [u8], address: usize, flags: u8, source: u16, label: &[u8])
    requires { (52 ≤ length d.old) × ((address < 65536) × (length label.now ≡ tag_size)) }
    ensures { d.new ≡ put d.old 0 (frontOf address flags source ++ (label.now ++ four_zeros)) }
{
    front(d, address, flags, source);
    wire::put(d, FRONT, *wire::whole::<{ layout::TAG_SIZE }>(label));
    wire::put(d, LABEL_END, [0; 4]);
}

// "The label shown is the volume's own record, or the blank label if empty": a part of the tags, chosen beside the blank label.
pub fn label<'a>(tags: &'a [u8], blank: &'a [u8], volume: u16) -> &'a [u8]
    requires { tag_size * volume ≤ length tags.now }
    ensures { result.now ≡ label_of tags.now blank.now volume }
{
    if volume == 0 {
        return blank;
    }
    let from = layout::TAG_SIZE * ((volume - 1) as usize);
    let to = from + layout::TAG_SIZE;
    &tags[from..to]
}

// "import/export 38h, plus 01h full, plus 02h marked"
#[tactic(auto, unfolding(rules::specs::Listing::flags, rules::specs::Choice::when))]
fn port_flags(volume: u16, mark: u8) -> u8
    ensures { result ≡ flags_of port volume mark }
{
    match (volume, mark) {
        (0, 0) => 0x38,
        (0, _) => 0x3A,
        (_, 0) => 0x39,
        _ => 0x3B,
    }
}

// "transport 00h; storage and drive 08h, full 09h"
#[tactic(auto, unfolding(rules::specs::Listing::flags, rules::specs::Choice::when))]
fn flags(kind: u8, volume: u16, mark: u8) -> u8
    ensures { result ≡ flags_of kind volume mark }
{
    match kind {
        layout::TRANSPORT => 0x00,
        layout::PORT => port_flags(volume, mark),
        _ if volume == 0 => 0x08,
        _ => 0x09,
    }
}

// "Descriptor, 16 bytes or 52". With tags or without stays a bool, as the rules' `width` and `descriptor` have it.
#[tactic(auto, unfolding(rules::specs::Listing::width, rules::specs::Choice::when))]
pub fn width(tagged: bool) -> usize
    ensures { result ≡ width_of tagged }
{
    if tagged { TAGGED } else { PLAIN }
}

impl<'a> Stock<'a> {
    // Writes the descriptor of an element.
    fn describe(self, d: &mut [u8], tagged: bool, slot: Slot)
        requires tagged_in_bounds { width_of tagged ≤ length d.old }
        requires address_bound { slot.address < 65536 }
        requires element_size_in_bounds { element_at slot.place + element_size ≤ length self.elements.now }
        ensures { d.new ≡ put d.old 0 (descriptor tagged (tables_of self.entry) (slot_of slot)) }
    {
        let volume = tables::element::volume(self.elements, slot.place);
        let source = tables::element::source(self.elements, slot.place);
        let f = flags(
            slot.kind,
            volume,
            tables::element::mark(self.elements, slot.place),
        );
        if tagged {
            with_label(
                d,
                slot.address,
                f,
                source,
                label(self.tags, self.blank, volume),
            );
        } else {
            without_label(d, slot.address, f, source);
        }
    }

    // Writes the descriptor of an element from a place of d on, if it is marked, and answers where the next one goes.
    fn describe_marked(self, d: &mut [u8], at: usize, tagged: bool, slot: Slot) -> usize
        requires tagged_in_bounds { at + marks_in self.marks.now 1 slot.place * width_of tagged ≤ length d.old }
        requires address_bound { slot.address < 65536 }
        requires element_size_in_bounds { element_at slot.place + element_size ≤ length self.elements.now }
        ensures d_after { d.new ≡ put d.old at (descriptors tagged (tables_of self.entry) (marked_from self.entry.marks.now slot 1)) }
        ensures value { result ≡ at + marks_in self.entry.marks.now 1 slot.place * width_of tagged }
    {
        if marks::marked(self.marks, slot.place) {
            let next = at + width(tagged);
            self.describe(&mut d[at..next], tagged, slot);
            return next;
        }
        at
    }

    // Writes the descriptors of those of n elements of a type that are marked, from an element on.
    fn describe_run(self, d: &mut [u8], tagged: bool, first: Slot, n: usize)
        requires tagged_in_bounds { marks_in self.marks.now n first.place * width_of tagged ≤ length d.old }
        requires n_bound { first.address + n ≤ 65536 }
        requires n_in_bounds { element_at (first.place + n) ≤ length self.elements.now }
        ensures { d.new ≡ put d.old 0 (descriptors tagged (tables_of self.entry) (marked_from self.entry.marks.now first n)) }
    {
        let mut at = 0;
        for i in 0..n {
            let slot = Slot {
                address: first.address + i,
                place: first.place + i,
                ..first
            };
            at = self.describe_marked(d, at, tagged, slot);
        }
    }

    // Writes a page from a place of the answer on.
    pub fn put_page(self, answer: &mut [u8], at: usize, page: Page)
        requires m_in_bounds { at + page_bytes page.tagged page.m ≤ length answer.old }
        requires m_value { (page.m ≡ marks_in self.marks.now page.run page.first.place) × (page.n < 65536) }
        requires run_bound { page.first.address + page.run ≤ 65536 }
        requires run_in_bounds { element_at (page.first.place + page.run) ≤ length self.elements.now }
        ensures { answer.new ≡ put answer.old at (shown page.tagged (tables_of self.entry) page.first.kind page.n (marked_from self.entry.marks.now page.first page.run)) }
    {
        if page.m == 0 {
            return;
        }
        let body = at + HEADER;
        let end = body + page.m * width(page.tagged);
        page_header(&mut answer[at..body], page.tagged, page.first.kind, page.n);
        self.describe_run(&mut answer[body..end], page.tagged, page.first, page.run);
    }
}

// ---- a page

// "80h with tags else 0"
#[tactic(auto, unfolding(rules::specs::Choice::when))]
fn tag_mark(tagged: bool) -> u8
    ensures { result ≡ when tagged 0x80 0 }
{
    if tagged { 0x80 } else { 0 }
}

// "type, 80h with tags else 0, descriptor length (2), 0, three-byte descriptor byte count"
#[tactic(auto, unfolding(rules::specs::Bytes::put, rules::specs::Bytes::three, rules::specs::Listing::page_header))]
fn page_header(d: &mut [u8], tagged: bool, kind: u8, n: usize)
    requires { (8 ≤ length d.old) × (n < 65536) }
    ensures { d.new ≡ put d.old 0 (page_header tagged kind n) }
{
    let w = width(tagged);
    let bytes = n * w;
    wire::put(d, 0, [kind, tag_mark(tagged)]);
    wire::put_word(d, 2, w as u16);
    d[4] = 0;
    wire::put_triple(d, 5, bytes as u32);
}

// ---- the header

// "first chosen address (0 if none), number chosen, 0, three-byte count of all page bytes"; a search tells its action, the code, in the fifth byte
#[tactic(auto, unfolding(rules::specs::Bytes::put, rules::specs::Bytes::three, rules::specs::Listing::header))]
pub fn header(d: &mut [u8], first: usize, n: usize, code: u8, bytes: usize)
    requires { (8 ≤ length d.old) × ((first < 65536) × ((n < 65536) × (bytes < 16777216))) }
    ensures { d.new ≡ put d.old 0 (header_of first n code bytes) }
{
    wire::put_word(d, 0, first as u16);
    wire::put_word(d, 2, n as u16);
    d[4] = code;
    wire::put_triple(d, 5, bytes as u32);
}

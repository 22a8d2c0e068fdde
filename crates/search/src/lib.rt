// "Find by label": SEND VOLUME TAG, the bytes of the search, and which elements it finds.
#![tactic(auto)]

ghost use Rattle.std.specs.Prelude.{◌≡◌, List, [], ◌∷◌, ℕ, ◌*◌, ◌-◌, ◌≤◌, length, eqb};
ghost use Rattle.rules.specs.Choice.{each, any_of, below};
ghost use Rattle.rules.specs.Bytes.{put, three};
ghost use Rattle.rules.specs.Tables.{head_size, hosts, Tables, Rest, lent, searching, element_at, tag_size, template_size, behind_last, next_at};
ghost use Rattle.rules.specs.Roster.{spread};
ghost use Rattle.rules.specs.Order.{outcome};
ghost use Rattle.rules.specs.Search.{ANY-CHARACTER, reserved_tags, search_for, send_tag, no_search, agrees_from, in_range, label_matches};
ghost use Rattle.tables.specs.Ranges.{meaning, meant};
ghost use Rattle.order.specs.Ending.{ended};
ghost use Rattle.search.specs.Marks.{Marked, Sought, AllLabelled, Searchable, asks, goes, Cared, volume_fits, looks_for, slot, marked_at, RunMarked, RunSearchable};

use order::{Cause, Reply};
use tables::Range;

// "'*' will match any string of characters"; "'?' will match any single character"
const ANY_STRING: u8 = b'*';

const ANY_CHARACTER: u8 = b'?';

// As many bytes of a template as pay for a look at all of them.
const AT_ONCE: usize = 16;

// Where a label has its sequence number, and a list the least and the greatest.
const SEQUENCE: usize = 34;

const LIST_LEAST: usize = 34;

const LIST_GREATEST: usize = 38;

// ---- what matches

// A byte of a template goes with one of a label.
fn alike(wanted: u8, shown: u8) -> bool
    ensures { result ≡ any_of (eqb wanted ANY-CHARACTER ∷ eqb wanted shown ∷ []) }
{
    if wanted == ANY_CHARACTER {
        return true;
    }
    wanted == shown
}

// 1 where a label must have the template's own byte, 0 where it may have any.
fn asked(own: u8) -> u8
    ensures { result ≡ asks own }
{
    if own == ANY_CHARACTER {
        return 0;
    }
    1
}

// A label's sequence number is in the search's range; 5h: "ignore sequence numbers"
fn in_range(search: &[u8; layout::SEARCH_SIZE], label: &[u8; layout::TAG_SIZE]) -> bool
    ensures { result ≡ in_range search.now label.now }
{
    if search[layout::ACTION] != layout::IN_RANGE {
        return true;
    }
    let number = wire::word_at(label, SEQUENCE);
    if wire::word_at(search, layout::LEAST) > number {
        return false;
    }
    number <= wire::word_at(search, layout::GREATEST)
}

// A search's template, made ready once for all labels: which of its bytes ask for themselves, and how many come before the first '*': "When it appears in a
// template the remainder of the template .. is not used."
#[derive(Drop)]
struct Template<'a> {
    search: &'a [u8; layout::SEARCH_SIZE],
    care: [u8; layout::TEMPLATE_SIZE],
    used: usize,
    ghost ready: { Cared search.now care used },
}

impl<'a> Template<'a> {
    fn of(search: &'a [u8; layout::SEARCH_SIZE]) -> Template<'a>
        ensures { result.search.now ≡ search.now }
    {
        let mut care = [0u8; layout::TEMPLATE_SIZE];
        for i in 0..layout::TEMPLATE_SIZE {
            if search[i] == ANY_STRING {
                return Template {
                    search,
                    care,
                    used: i,
                };
            }
            care[i] = asked(search[i]);
        }
        Template {
            search,
            care,
            used: layout::TEMPLATE_SIZE,
        }
    }

    // The bytes that are used go with those of a label; the first that does not is the last looked at.
    fn all_alike(&self, label: &[u8; layout::TAG_SIZE]) -> bool
        ensures { result ≡ below self.now.used (goes self.now.search.now label.now) }
    {
        for i in 0..self.used {
            if !alike(self.search[i], label[i]) {
                return false;
            }
        }
        true
    }

    // The same with no way out before the end, so that the compiler takes 16 bytes at a time.
    fn none_missed(&self, label: &[u8; layout::TAG_SIZE]) -> bool
        ensures { result ≡ below self.now.used (goes self.now.search.now label.now) }
    {
        let mut missed: u8 = 0;
        for i in 0..self.used {
            if self.search[i] != label[i] {
                missed += self.care[i];
            }
        }
        missed == 0
    }

    // The template agrees with a label.
    fn agrees(&self, label: &[u8; layout::TAG_SIZE]) -> bool
        ensures { result ≡ agrees_from self.now.search.now label.now template_size 0 }
    {
        if self.used < AT_ONCE {
            return self.all_alike(label);
        }
        self.none_missed(label)
    }

    fn label_matches(&self, label: &[u8; layout::TAG_SIZE]) -> bool
        ensures { result ≡ label_matches self.now.search.now label.now }
    {
        if self.agrees(label) {
            return in_range(self.search, label);
        }
        false
    }

    // A volume's label matches: "only full elements match".
    fn volume_fits(&self, tags: &[u8], volume: u16) -> bool
        requires { tag_size * volume ≤ length tags.now }
        ensures { result ≡ volume_fits tags.now self.now.search.now volume }
    {
        if volume == 0 {
            return false;
        }
        let from = layout::TAG_SIZE * ((volume - 1) as usize);
        let to = from + layout::TAG_SIZE;
        self.label_matches(wire::whole::<36>(&tags[from..to]))
    }
}

// ---- which elements are found

// There is a search, for elements of this type: "0 all types".
fn looks_for(search: &[u8; layout::SEARCH_SIZE], kind: u8) -> bool
    ensures { (address place : ℕ) → result ≡ looks_for search.now (slot kind address place) }
{
    if search[layout::ACTION] == 0 {
        return false;
    }
    if search[layout::SEARCH_TYPE] == 0 {
        return true;
    }
    search[layout::SEARCH_TYPE] == kind
}

// Marks the places from `first` to before `end` whose volumes match.
fn mark_places(
    marks: &mut [u8],
    template: &Template<'_>,
    elements: &[u8],
    tags: &[u8],
    first: usize,
    end: usize,
)
    requires first_le_end { (first ≤ end) × ((element_at end ≤ length elements.now) × (end ≤ length marks.old)) }
    requires labels { AllLabelled elements.now tags.now }
    ensures { marks.new ≡ each (marked_at elements.now tags.now template.now.search.now) (end - first) first marks.old }
{
    for p in first..end {
        if template.volume_fits(tags, tables::element::volume(elements, p)) {
            marks[p] = 1;
        }
    }
}

// Marks what is found of a run, whose elements lie from a place on: none of another type, and none that the search has come past.
fn mark_run(
    marks: &mut [u8],
    template: &Template<'_>,
    r: Range,
    place: usize,
    elements: &[u8],
    tags: &[u8],
)
    requires { RunSearchable (meaning r) place elements.now tags.now marks.old }
    ensures { RunMarked (meaning r) place elements.now tags.now template.now.search.now marks.old marks.new }
{
    let search = template.search;
    if !looks_for(search, r.kind) {
        return;
    }
    let count = r.count as usize;
    let next = wire::triple_at(search, layout::NEXT) as usize;
    let passed = count.min(next.saturating_sub(r.first as usize));
    mark_places(
        marks,
        template,
        elements,
        tags,
        place + passed,
        place + count,
    );
}

// Marks the place of each element that the search finds, on marks of which none is made.
pub fn mark_found(
    marks: &mut [u8],
    runs: [Range; 4],
    elements: &[u8],
    tags: &[u8],
    search: &[u8; layout::SEARCH_SIZE],
)
    requires { Searchable (meant runs) elements.now tags.now marks.old }
    ensures { (t : Tables) → Sought t elements.now tags.now search.now → Marked t marks.new (spread 0 (meant runs)) }
{
    let template = Template::of(search);
    let mut place: usize = 0;
    for r in runs {
        mark_run(marks, &template, r, place, elements, tags);
        place += r.count as usize;
    }
}

// ---- the bytes of the search

// "reset clears it": "All zeros means no search"
pub fn forget(search: &mut [u8; layout::SEARCH_SIZE])
    ensures { search.new ≡ put search.old 0 no_search }
{
    let none = [0u8; layout::SEARCH_SIZE];
    wire::copy(search, &none);
}

// The lowest address that may still be told.
pub fn put_next(search: &mut [u8; layout::SEARCH_SIZE], next: usize)
    requires { next ≤ behind_last }
    ensures { search.new ≡ put search.old next_at (three next) }
{
    wire::put_triple(search, layout::NEXT, next as u32);
}

// ---- SEND VOLUME TAG

// A reserved byte of its list is not 0.
fn reserved(list: &[u8; layout::TAG_LIST_SIZE]) -> bool
    ensures { result ≡ reserved_tags list.now }
{
    if list[32] != 0 {
        return true;
    }
    if list[33] != 0 {
        return true;
    }
    if list[36] != 0 {
        return true;
    }
    list[37] != 0
}

// "A new search replaces it": template, type, action, range, and the block's start as the next address.
fn begin(
    search: &mut [u8; layout::SEARCH_SIZE],
    block: &[u8; 12],
    list: &[u8; layout::TAG_LIST_SIZE],
)
    ensures { search.new ≡ put search.old 0 (search_for block.now list.now) }
{
    wire::copy(search, &list[0..layout::TEMPLATE_SIZE]);
    wire::put(search, layout::SEARCH_TYPE, [block[1] % 16, block[5] % 32]);
    wire::put(
        search,
        layout::LEAST,
        [list[LIST_LEAST], list[LIST_LEAST + 1]],
    );
    wire::put(
        search,
        layout::GREATEST,
        [list[LIST_GREATEST], list[LIST_GREATEST + 1]],
    );
    let start = wire::word_at(block, 2);
    wire::put_triple(search, layout::NEXT, start as u32);
}

// From step 5 on: "other than 40 is 5/1A/00"
pub fn send_volume_tag(
    head: &mut [u8],
    search: &mut [u8; layout::SEARCH_SIZE],
    host: u8,
    block: &[u8; 12],
    list: &[u8],
) -> Reply
    requires head_long { head_size ≤ length head.old }
    requires host_known { host ≤ hosts }
    ensures { (elements : List ℕ) (rest : Rest) (buffer : List ℕ) → ended result (lent head.new elements (searching rest search.new)) buffer ≡ outcome (lent head.old elements (searching rest search.old)) buffer (send_tag (lent head.old elements (searching rest search.old)) host block.now list.now) }
{
    if list.len() != layout::TAG_LIST_SIZE {
        return order::refuse(head, host, Cause::ListLength);
    }
    let list = wire::whole::<40>(list);
    if reserved(list) {
        return order::refuse(head, host, Cause::ListField);
    }
    begin(search, block, list);
    order::good(head, host)
}

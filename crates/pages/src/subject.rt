// What a listing is of.
ghost use Rattle.pages.specs.Pages.{Labelled, stock};

// The tables that a descriptor shows, all but the head, and the marks of those elements that are told. Their labels can be shown: the blank label has
// its full length, and each volume that stands in the element table has a record.
#[derive(Clone, Copy)]
pub struct Stock<'a> {
    pub elements: &'a [u8],
    pub tags: &'a [u8],
    pub blank: &'a [u8],
    pub marks: &'a [u8],
    pub ghost labelled: { Labelled (stock elements.now tags.now blank.now) },
}

// An element: its type, the code that its range has and a page header tells, its address and its place in the table.
#[derive(Clone, Copy)]
pub struct Slot {
    pub kind: u8,
    pub address: usize,
    pub place: usize,
}

// What is told of a type: those of a run of elements that are marked, m of them, of the n that are chosen.
#[derive(Clone, Copy)]
pub struct Page {
    pub tagged: bool,
    pub first: Slot,
    pub run: usize,
    pub n: usize,
    pub m: usize,
}

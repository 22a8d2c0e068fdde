// The tables of the paper, the ranges, the labels and the lengths.
ghost use Rattle.std.specs.Prelude.{◌<◌, ◌≤◌};

use super::table;
use case_rooms::parts::Table;
use case_rooms::{State, parts};
use case_script::Line;
use case_script::class::Class;
use case_script::fault::Fault;
use case_script::word::Word;

// A new volume is of generation 1, and a new drive takes that one: bit 0.
const FIRST_GENERATION: u8 = 1;

const TAKES_FIRST: u8 = 0x01;

// "the record of a volume in the tag table"
fn label(state: State, volume: u32, room: &mut [u8], bytes: &[u8]) -> Result<State, Fault> {
    if bytes.len() != layout::TAG_SIZE {
        return Err(Fault::WrongByteCount);
    }
    let volumes = state.length(Table::Tags) / layout::TAG_SIZE;
    let before = (volume as usize).checked_sub(1).ok_or(Fault::Outside)?;
    if volumes <= before {
        return Err(Fault::Outside);
    }
    case_rooms::write(room, parts::TAGS_AT + layout::TAG_SIZE * before, bytes);
    Ok(state)
}

// How long the tables are that have n elements, v volumes and d drives.
fn sized(state: State, n: usize, v: usize, d: usize) -> State
    requires { (n ≤ 7) × (v ≤ 3) }
{
    state
        .resized(Table::Head, layout::HEAD_SIZE)
        .resized(Table::Elements, layout::ELEMENT_SIZE * n)
        .resized(Table::Tags, layout::TAG_SIZE * v)
        .resized(Table::Blank, layout::TAG_SIZE)
        .resized(Table::Generations, v)
        .resized(Table::Masks, d)
        .resized(Table::Search, layout::SEARCH_SIZE)
}

// "a head of 60 zeros, .. a blank label of 36 blanks", and no search: "All zeros means no search"
fn empty(room: &mut [u8]) {
    case_rooms::paint(room, parts::HEAD_AT, layout::HEAD_SIZE, 0);
    case_rooms::paint(room, parts::BLANK_AT, layout::TAG_SIZE, b' ');
    case_rooms::paint(room, parts::SEARCH_AT, layout::SEARCH_SIZE, 0);
}

// A volume below 256 in the element at a place.
fn stock(room: &mut [u8], place: usize, volume: u8)
    requires { place ≤ 7 }
{
    let at = parts::ELEMENTS_AT + layout::ELEMENT_SIZE * place;
    case_rooms::paint(room, at + 1, 1, volume);
}

// "Transport 0001h, import/export 0010h, drive 0100h, storage 1000h to 1003h. Volume 1 at 1000h, 2 at 1002h": the elements lie by address,
// so that these two stand at places 3 and 5; the other two shelves are empty.
fn small_elements(room: &mut [u8]) {
    let ranges = [0u8, 1, 0, 1, 0x10, 0, 0, 4, 0, 0x10, 0, 1, 1, 0, 0, 1];
    case_rooms::write(room, parts::HEAD_AT, &ranges);
    case_rooms::paint(room, parts::HEAD_AT + layout::PANEL + 1, 1, 2);
    case_rooms::paint(room, parts::ELEMENTS_AT, layout::ELEMENT_SIZE * 7, 0);
    stock(room, 3, 1);
    stock(room, 5, 2);
}

// "volumes 1, 2 and 3 have labels of 36 letters A, B, C"
fn small_labels(room: &mut [u8]) {
    for (before, letter) in b"ABC".iter().enumerate() {
        let at = parts::TAGS_AT + layout::TAG_SIZE * before;
        case_rooms::paint(room, at, layout::TAG_SIZE, *letter);
    }
}

// "both volumes are of generation 1 and the drive takes it"; the third, which is not in, is of it too
fn small_generations(room: &mut [u8]) {
    case_rooms::paint(room, parts::GENERATIONS_AT, 3, FIRST_GENERATION);
    case_rooms::paint(room, parts::MASKS_AT, 1, TAKES_FIRST);
}

// The tables as a whole.
fn whole(state: State, what: Word, room: &mut [u8]) -> State {
    empty(room);
    if what == Word::TablesSmall {
        small_elements(room);
        small_labels(room);
        small_generations(room);
        return sized(state, 7, 3, 1);
    }
    sized(state, 0, 0, 0)
}

// "The element table is then made anew: an empty element for each address of the four ranges."
fn anew(state: State, room: &mut [u8]) -> Result<State, Fault> {
    let head = state.table(Table::Head, room);
    if head.len() < layout::HEAD_SIZE {
        return Err(Fault::Outside);
    }
    let elements = tables::total(tables::ranges(head));
    table::resize(
        state.resized(Table::Elements, 0),
        Table::Elements,
        layout::ELEMENT_SIZE * elements,
        0,
        room,
    )
}

// How many elements the k-th range of the head counts, from 0 on.
fn counted(room: &[u8], k: usize) -> u16
    requires { k < 4 }
{
    if room.len() < layout::HEAD_SIZE {
        return 0;
    }
    wire::word_at(room, layout::RANGE_SIZE * k + layout::RANGE_COUNT)
}

// Every shelf is empty: there are as many as the second range counts.
fn all_empty(room: &mut [u8]) {
    if room.len() < layout::HEAD_SIZE {
        return;
    }
    let shelves = counted(room, 1);
    tables::head::show(room, shelves);
}

// Which range of the head a word speaks of, from 0 on.
fn range_of(word: Word) -> usize
    ensures { result < 4 }
{
    match word {
        Word::Storage => 1,
        Word::Port => 2,
        Word::Drive => 3,
        _ => 0,
    }
}

// "a range of the head"
fn range(k: usize, first: u16, count: u16, room: &mut [u8]) -> Result<(), Fault>
    requires { k < 4 }
{
    if room.len() < layout::HEAD_SIZE {
        return Err(Fault::Outside);
    }
    let at = layout::RANGE_SIZE * k;
    wire::put_word(room, at, first);
    wire::put_word(room, at + layout::RANGE_COUNT, count);
    all_empty(room);
    Ok(())
}

// A range line: the masks are made anew with the elements, one for each drive.
fn ranged(state: State, line: Line, room: &mut [u8]) -> Result<State, Fault> {
    let first = u16::try_from(line.first).map_err(|_| Fault::AboveWord)?;
    let count = u16::try_from(line.second).map_err(|_| Fault::AboveWord)?;
    range(range_of(line.word), first, count, room)?;
    let made = anew(state, room)?.resized(Table::Masks, 0);
    let drives = usize::from(counted(room, 3));
    table::resize(made, Table::Masks, drives, TAKES_FIRST, room)
}

// "the tag table has V records; new ones are zeros", and a new volume is of generation 1
fn volumes(state: State, count: u32, room: &mut [u8]) -> Result<State, Fault> {
    let v = count as usize;
    let tagged = table::resize(state, Table::Tags, layout::TAG_SIZE * v, 0, room)?;
    table::resize(tagged, Table::Generations, v, FIRST_GENERATION, room)
}

// "the table's length in bytes"
fn lengthen(state: State, line: Line, room: &mut [u8]) -> Result<State, Fault> {
    if line.word == Word::Volumes {
        return volumes(state, line.first, room);
    }
    table::resize(state, Table::of(line.word), line.first as usize, 0, room)
}

pub fn build(state: State, line: Line, room: &mut [u8], bytes: &[u8]) -> Result<State, Fault> {
    match line.word.class() {
        Class::Whole => Ok(whole(state, line.word, room)),
        Class::Range => ranged(state, line, room),
        Class::Label => label(state, line.first, room, bytes),
        _ => lengthen(state, line, room),
    }
}

// `set`: "stores what the same line without `set` asks for".
#![tactic(auto)]

ghost use Rattle.std.specs.Prelude.{◌+◌, ◌≤◌, length};
ghost use Rattle.rules.specs.Tables.{element_at, element_size};

use case_rooms::State;
use case_rooms::parts::{self, Table};
use case_script::Line;
use case_script::class::Class;
use case_script::fault::Fault;
use case_script::word::Word;
use case_setup::table;
use tables::Types;

// A field of one byte of the element at a place.
fn small_field(elements: &mut [u8], what: Word, place: usize, value: u8)
    requires { element_at place + element_size ≤ length elements.old }
{
    let holder = tables::element::holder(elements, place);
    let id = tables::element::id(elements, place);
    let volume = tables::element::volume(elements, place);
    let source = tables::element::source(elements, place);
    match what {
        Word::Holder => tables::element::hold(elements, place, value, id),
        Word::Id => tables::element::hold(elements, place, holder, value),
        _ => tables::element::fill(elements, place, volume, source, value),
    }
}

// A field of the element at a place.
fn field(elements: &mut [u8], what: Word, place: usize, value: u16) -> Result<(), Fault> {
    if elements.len() / layout::ELEMENT_SIZE <= place {
        return Err(Fault::Outside);
    }
    let volume = tables::element::volume(elements, place);
    let source = tables::element::source(elements, place);
    let mark = tables::element::mark(elements, place);
    match what {
        Word::Volume => tables::element::fill(elements, place, value, source, mark),
        Word::Source => tables::element::fill(elements, place, volume, value, mark),
        _ => {
            let byte = u8::try_from(value).map_err(|_| Fault::AboveByte)?;
            small_field(elements, what, place, byte);
        }
    }
    Ok(())
}

fn element(line: Line, state: State, room: &mut [u8]) -> Result<(), Fault> {
    let value = u16::try_from(line.second).map_err(|_| Fault::AboveWord)?;
    let head = state.table(Table::Head, room);
    if head.len() < layout::HEAD_SIZE {
        return Err(Fault::Outside);
    }
    let place = tables::find(tables::runs(head), line.first, Types::Any).ok_or(Fault::NoElement)?;
    let start = parts::ELEMENTS_AT.min(room.len());
    let end = start + state.length(Table::Elements).min(room.len() - start);
    field(&mut room[start..end], line.word, place, value)
}

// Whether an empty shelf is at an address.
fn is_empty_shelf(address: u32, head: &[u8], elements: &[u8]) -> bool {
    if head.len() < layout::HEAD_SIZE {
        return false;
    }
    let spot = tables::spot_of(tables::runs(head), address);
    if spot.kind != layout::STORAGE {
        return false;
    }
    let place = spot.place;
    if elements.len() / layout::ELEMENT_SIZE <= place {
        return false;
    }
    tables::element::volume(elements, place) == 0
}

// The number of empty shelves behind a line, where the shelf at its address was empty, and is.
fn counted(n: u16, before: bool, behind: bool) -> u16 {
    match (before, behind) {
        (false, true) => n.saturating_add(1),
        (true, false) => n.saturating_sub(1),
        _ => n,
    }
}

fn count(before: bool, behind: bool, head: &mut [u8]) {
    if head.len() < layout::HEAD_SIZE {
        return;
    }
    let n = tables::head::panel(head);
    tables::head::show(head, counted(n, before, behind));
}

// "`set volume` keeps the number of empty shelves": one more where a shelf is emptied, one fewer where one is filled.
fn element_counted(line: Line, state: State, room: &mut [u8]) -> Result<(), Fault> {
    let address = line.first;
    let before = is_empty_shelf(
        address,
        state.table(Table::Head, room),
        state.table(Table::Elements, room),
    );
    element(line, state, room)?;
    let behind = is_empty_shelf(
        address,
        state.table(Table::Head, room),
        state.table(Table::Elements, room),
    );
    let n = state.length(Table::Head).min(room.len());
    count(before, behind, &mut room[..n]);
    Ok(())
}

// The number of empty shelves, true or not.
fn free(value: u32, head: &mut [u8]) -> Result<(), Fault> {
    let shelves = u16::try_from(value).map_err(|_| Fault::AboveWord)?;
    if head.len() < layout::HEAD_SIZE {
        return Err(Fault::Outside);
    }
    tables::head::show(head, shelves);
    Ok(())
}

// "unit holder, prevent mask and the number of empty shelves"
fn unit(what: Word, value: u32, head: &mut [u8]) -> Result<(), Fault> {
    if what == Word::Free {
        return free(value, head);
    }
    let byte = u8::try_from(value).map_err(|_| Fault::AboveByte)?;
    if head.len() < layout::HEAD_SIZE {
        return Err(Fault::Outside);
    }
    match what {
        Word::Unit => tables::head::hold_unit(head, byte),
        _ => tables::head::set_mask(head, byte),
    }
    Ok(())
}

// "a host's record"
fn record(host: u32, head: &mut [u8], bytes: &[u8]) -> Result<(), Fault> {
    if head.len() < layout::HEAD_SIZE {
        return Err(Fault::Outside);
    }
    if host < 1 || (layout::HOSTS as u32) < host {
        return Err(Fault::NoHost);
    }
    match bytes {
        [key, asc, ascq] => tables::head::note(head, host as u8, *key, *asc, *ascq),
        [asc, ascq] => tables::head::attend(head, host as u8, *asc, *ascq),
        _ => return Err(Fault::WrongByteCount),
    }
    Ok(())
}

pub fn set(state: State, line: Line, room: &mut [u8], bytes: &[u8]) -> Result<State, Fault> {
    let head = state.length(Table::Head).min(room.len());
    match line.word.class() {
        Class::Table => return table::grow(state, Table::of(line.word), line.first, room, bytes),
        Class::Element => element_counted(line, state, room)?,
        Class::Unit => unit(line.word, line.first, &mut room[..head])?,
        _ => record(line.first, &mut room[..head], bytes)?,
    }
    Ok(state)
}

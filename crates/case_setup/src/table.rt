// A table: how long it becomes, and how it grows.
use case_rooms::State;
use case_rooms::parts::Table;
use case_script::fault::Fault;

// "the table's length in bytes; what is added is zeros", or another byte: the table gets n bytes.
pub fn resize(
    state: State,
    table: Table,
    n: usize,
    added: u8,
    room: &mut [u8],
) -> Result<State, Fault> {
    let part = table.part();
    let length = state.length(table);
    if part.most < n {
        return Err(Fault::TooLarge);
    }
    if length < n {
        case_rooms::paint(room, part.at + length, n - length, added);
    }
    Ok(state.resized(table, n))
}

// "A table grows to hold the bytes": the table gets some from a place on.
pub fn grow(
    state: State,
    table: Table,
    at: u32,
    room: &mut [u8],
    bytes: &[u8],
) -> Result<State, Fault> {
    let from = at as usize;
    let end = from + bytes.len();
    let grown = resize(state, table, end.max(state.length(table)), 0, room)?;
    case_rooms::write(room, table.part().at + from, bytes);
    Ok(grown)
}

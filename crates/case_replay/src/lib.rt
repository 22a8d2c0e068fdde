// The replays of a case's log.
#![tactic(auto)]

ghost use Rattle.std.specs.Prelude.{◌≡◌};
ghost use Rattle.rules.specs.Tables.{lent};
ghost use Rattle.rules.specs.Replay.{replay as replayOf};
ghost use Rattle.replay.specs.Ended.{ended};
ghost use Rattle.case_rooms.specs.Lying.{lying, around, log_from};

use case_rooms::State;
use case_rooms::parts::{self, Table};
use case_script::Line;
use case_script::fault::Fault;
use case_script::word::Word;
use replay::Replayed;
use tables::Fixed;

// The replay on head, elements and search as they are lent, and on the parts of the room that the state says, with the log from the place `at` on.
fn entered(
    state: State,
    at: usize,
    expected: u32,
    budget: u32,
    head: &mut [u8],
    elements: &mut [u8],
    room: &[u8],
    search: &mut [u8],
) -> Replayed
    ensures { ended result (lent head.new elements.new (around state room.now search.new))
        ≡ replayOf (lent head.old elements.old (around state room.now search.old)) (log_from state at room.now) expected budget }
{
    let whole = case_rooms::part(room, parts::LOG_AT, state.log.length);
    replay::replay(
        head,
        elements,
        Fixed {
            tags: state.table(Table::Tags, room),
            blank: state.table(Table::Blank, room),
            generations: state.table(Table::Generations, room),
            masks: state.table(Table::Masks, room),
        },
        search,
        case_rooms::part(whole, at, whole.len()),
        expected,
        budget,
    )
}

// The replay on as much of the copies as the state says.
fn made(
    state: State,
    at: usize,
    expected: u32,
    budget: u32,
    head: &mut [u8],
    elements: &mut [u8],
    room: &[u8],
    search: &mut [u8],
) -> Replayed
    ensures { ended result (lying state head.new elements.new room.now search.new)
        ≡ replayOf (lying state head.old elements.old room.now search.old) (log_from state at room.now) expected budget }
{
    let h = state.length(Table::Head).min(head.len());
    let e = state.length(Table::Elements).min(elements.len());
    let s = state.length(Table::Search).min(search.len());
    entered(
        state,
        at,
        expected,
        budget,
        &mut head[0..h],
        &mut elements[0..e],
        room,
        &mut search[0..s],
    )
}

// What the core handed back, for the state. No From: both types are of other crates, and case_rooms stands below the core.
fn noted(r: Replayed) -> case_rooms::Replayed
    ensures { result ≡ record { number = r.number; lines = r.lines; place = r.place; expected = r.expected } }
{
    case_rooms::Replayed {
        number: r.number,
        lines: r.lines,
        place: r.place,
        expected: r.expected,
    }
}

// The replay from the place `at` on.
fn run(state: State, at: usize, expected: u32, budget: u32, room: &mut [u8]) -> State {
    let ended = case_keeping::on_copies(state, room, |copies, lent| {
        made(
            state,
            at,
            expected,
            budget,
            &mut copies.head,
            &mut copies.elements,
            lent,
            &mut copies.search,
        )
    });
    case_keeping::replayed(state, at, noted(ended))
}

// "the whole log, from its beginning", or "from where the last ended"
pub fn replay(state: State, line: Line, room: &mut [u8]) -> Result<State, Fault> {
    if line.word == Word::Replay {
        return Ok(run(state, 0, line.first, line.second, room));
    }
    let next = state.log.next.ok_or(Fault::NoReplay)?;
    Ok(run(state, next.at, next.expected, line.first, room))
}

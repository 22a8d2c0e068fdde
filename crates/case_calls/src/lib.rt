// The calls: a command, or one of the three events.
#![tactic(auto)]

ghost use Rattle.std.specs.Prelude.{◌≡◌, length, take};
ghost use Rattle.order.specs.Ending.{ended};
ghost use Rattle.case_rooms.specs.Parts.{part as part_of, parameters_at};
ghost use Rattle.case_rooms.specs.Alike.{untouched as untouchedOf};
ghost use Rattle.case_rooms.specs.Lying.{lying};
ghost use Rattle.case_entering.specs.Called.{called};

use case_rooms::parts::{self, Table};
use case_rooms::{Effect, State};
use case_script::Line;
use order::Reply;

// The call on as much of the copies, and with as long an answer buffer, as the state says.
fn made(
    state: State,
    line: Line,
    head: &mut [u8],
    elements: &mut [u8],
    room: &[u8],
    search: &mut [u8],
    answer: &mut [u8],
    block: &[u8],
) -> Reply
    ensures { ended result (lying state head.new elements.new room.now search.new) (take state.buffer answer.new)
        ≡ called line.word line.first line.second (lying state head.old elements.old room.now search.old) state.host block.now
        (part_of room.now parameters_at state.parameters) (untouchedOf (length (take state.buffer answer.old))) }
{
    let h = state.length(Table::Head).min(head.len());
    let e = state.length(Table::Elements).min(elements.len());
    let s = state.length(Table::Search).min(search.len());
    let b = state.buffer.min(answer.len());
    case_entering::entered(
        state,
        line,
        &mut head[0..h],
        &mut elements[0..e],
        room,
        &mut search[0..s],
        &mut answer[0..b],
        block,
    )
}

// The call that a line makes.
pub fn call(state: State, line: Line, room: &mut [u8], block: &[u8]) -> Effect {
    let mut answer = [0u8; parts::ANSWER_MOST];
    let reply = case_keeping::on_copies(state, room, |copies, lent| {
        made(
            state,
            line,
            &mut copies.head,
            &mut copies.elements,
            lent,
            &mut copies.search,
            &mut answer,
            block,
        )
    });
    case_keeping::answered(state, line.word, reply, room, &answer)
}

// How a case enters the core: by the call of `serving` that its line names. What that leaves is the rules' own outcome.
#![tactic(auto)]

ghost use Rattle.std.specs.Prelude.{◌≡◌, [], length};
ghost use Rattle.rules.specs.Tables.{Tables, lent};
ghost use Rattle.order.specs.Ending.{ended};
ghost use Rattle.tables.specs.Lent.{rest_of};
ghost use Rattle.serving.specs.Happened.{happened};
ghost use Rattle.case_rooms.specs.Parts.{part as part_of, parameters_at};
ghost use Rattle.case_rooms.specs.Alike.{untouched as untouchedOf};
ghost use Rattle.case_rooms.specs.Lying.{around};
ghost use Rattle.case_entering.specs.Called.{event as event_of, called};

use case_rooms::State;
use case_rooms::parts::{self, Table};
use case_script::Line;
use case_script::word::Word;
use events::Event;
use order::Reply;
use tables::Fixed;

// The event that a line names.
#[tactic(auto, unfolding(crate::specs::Called::event))]
fn event(line: Line) -> Event
    ensures { (t : Tables) → happened result t ≡ event_of line.word line.first line.second t }
{
    match line.word {
        Word::Import => Event::Import {
            address: line.first,
            volume: line.second,
        },
        Word::Export => Event::Export {
            address: line.first,
        },
        _ => Event::Reset,
    }
}

// The call of the core that a line names, on the tables as they lie.
fn enter(
    line: Line,
    host: u32,
    head: &mut [u8],
    elements: &mut [u8],
    fixed: Fixed<'_>,
    search: &mut [u8],
    block: &[u8],
    parameters: &[u8],
    answer: &mut [u8],
) -> Reply
    ensures { ended result (lent head.new elements.new (rest_of fixed.entry search.new)) answer.new ≡ called line.word line.first line.second (lent head.old elements.old (rest_of fixed.entry search.old)) host block.now parameters.now answer.old }
{
    match line.word {
        Word::Command => serving::command(
            head, elements, fixed, search, host, block, parameters, answer,
        ),
        _ => serving::event(head, elements, fixed, search, event(line)),
    }
}

// The call on head, elements and search as they are lent, and on the parts of the room that the state says, with an answer buffer full of EEh.
pub fn entered(
    state: State,
    line: Line,
    head: &mut [u8],
    elements: &mut [u8],
    room: &[u8],
    search: &mut [u8],
    answer: &mut [u8],
    block: &[u8],
) -> Reply
    ensures { ended result (lent head.new elements.new (around state room.now search.new)) answer.new
        ≡ called line.word line.first line.second (lent head.old elements.old (around state room.now search.old)) state.host block.now
        (part_of room.now parameters_at state.parameters) (untouchedOf (length answer.old)) }
{
    answer.fill(case_rooms::UNTOUCHED);
    enter(
        line,
        state.host,
        head,
        elements,
        Fixed {
            tags: state.table(Table::Tags, room),
            blank: state.table(Table::Blank, room),
            generations: state.table(Table::Generations, room),
            masks: state.table(Table::Masks, room),
        },
        search,
        block,
        case_rooms::part(room, parts::PARAMETERS_AT, state.parameters),
        answer,
    )
}

// Around a call: what it is given, what is kept from before it, what it left, and the state after it.
#![tactic(auto)]

ghost use Rattle.std.specs.Prelude.{◌≡◌};
ghost use Rattle.case_rooms.specs.Alike.{past_count};

use case_rooms::parts::Table;
use case_rooms::{Call, Difference, Effect, Ending, Finding, Log, Next, Replayed, State, parts};
use case_script::Line;
use case_script::fault::Fault;
use case_script::word::Word;
use order::Reply;

// "the bytes past the count are still EEh"
fn past(answer: &[u8], count: u32) -> Finding
    ensures { result ≡ past_count answer.now count }
{
    let rest = case_rooms::part(answer, count as usize, answer.len());
    let i = case_rooms::untouched(rest);
    if i < rest.len() {
        return Finding::Differs(Difference {
            what: Word::Command,
            at: (count as usize) + i,
            found: u32::from(rest[i]),
            expected: u32::from(case_rooms::UNTOUCHED),
        });
    }
    Finding::Done
}

// The state after a call that ended so.
fn called(state: State, ending: Ending) -> State {
    let kept = state.sizes;
    State {
        last: Some(Call { kept, ending }),
        ..state
    }
}

// The log behind a replay from the place `from` on: `resume` goes on where it ended.
fn gone_on(log: Log, from: usize, ended: Replayed) -> Log {
    let start = from.min(parts::LOG_MOST);
    let taken = ended.place.min(parts::LOG_MOST);
    Log {
        next: Some(Next {
            at: start + taken,
            expected: ended.expected,
        }),
        ..log
    }
}

// Behind a replay from the place `from` of the log on.
pub fn replayed(state: State, from: usize, ended: Replayed) -> State {
    let log = gone_on(state.log, from, ended);
    called(State { log, ..state }, Ending::Replayed(ended))
}

// Copies of the tables that a call writes.
#[derive(Drop)]
pub struct Copies {
    pub head: [u8; parts::HEAD_MOST],
    pub elements: [u8; parts::ELEMENTS_MOST],
    pub search: [u8; parts::SEARCH_MOST],
}

// The tables that a call writes, as they are before it: copied, and kept in the room for `kept`.
fn lent(room: &mut [u8]) -> Copies {
    let mut head = [0u8; parts::HEAD_MOST];
    let mut elements = [0u8; parts::ELEMENTS_MOST];
    let mut search = [0u8; parts::SEARCH_MOST];
    case_rooms::write(
        &mut head,
        0,
        case_rooms::part(room, parts::HEAD_AT, parts::HEAD_MOST),
    );
    case_rooms::write(
        &mut elements,
        0,
        case_rooms::part(room, parts::ELEMENTS_AT, parts::ELEMENTS_MOST),
    );
    case_rooms::write(
        &mut search,
        0,
        case_rooms::part(room, parts::SEARCH_AT, parts::SEARCH_MOST),
    );
    case_rooms::write(room, parts::KEPT_HEAD_AT, &head);
    case_rooms::write(room, parts::KEPT_ELEMENTS_AT, &elements);
    case_rooms::write(room, parts::KEPT_SEARCH_AT, &search);
    Copies {
        head,
        elements,
        search,
    }
}

// A table as a call left it.
fn take_back(state: State, table: Table, room: &mut [u8], left: &[u8]) {
    case_rooms::write(
        room,
        table.part().at,
        case_rooms::part(left, 0, state.length(table)),
    );
}

// The core changes head, elements and search while it reads the rest, so that a call is lent copies of these three.
pub fn on_copies<R, F: FnOnce(&mut Copies, &[u8]) -> R>(state: State, room: &mut [u8], call: F) -> R
    requires { F.IsAlwaysCallable call }
    ensures { (copies : _) × (rest : _) × (after : _) × F.post call copies rest result after }
{
    let mut copies = lent(room);
    let came = call(&mut copies, room);
    take_back(state, Table::Head, room, &copies.head);
    take_back(state, Table::Elements, room, &copies.elements);
    take_back(state, Table::Search, room, &copies.search);
    came
}

// Behind a call: its answer buffer as it left it, and what it has come to. The parameters were "of the next command alone".
pub fn answered(state: State, what: Word, reply: Reply, room: &mut [u8], answer: &[u8]) -> Effect {
    let lent = case_rooms::part(answer, 0, state.buffer);
    case_rooms::write(room, parts::ANSWER_AT, lent);
    let parameters = if what == Word::Command {
        0
    } else {
        state.parameters
    };
    Effect {
        state: called(
            State {
                parameters,
                ..state
            },
            Ending::Answered(reply, state.buffer),
        ),
        finding: Ok(past(lent, reply.count)),
    }
}

// "the length of the answer buffer of the commands that follow"
fn buffer(state: State, n: u32) -> Result<State, Fault> {
    let buffer = n as usize;
    if parts::ANSWER_MOST < buffer {
        return Err(Fault::TooLarge);
    }
    Ok(State { buffer, ..state })
}

// "the parameter bytes of the next command alone"
fn parameters(state: State, room: &mut [u8], bytes: &[u8]) -> Result<State, Fault> {
    if parts::PARAMETERS_MOST < bytes.len() {
        return Err(Fault::TooLarge);
    }
    case_rooms::write(room, parts::PARAMETERS_AT, bytes);
    Ok(State {
        parameters: bytes.len(),
        ..state
    })
}

// "appends TEXT and a line feed to the case's log"; a line feed is the last of the bytes where the line has one
fn log(state: State, room: &mut [u8], bytes: &[u8]) -> Result<State, Fault> {
    let end = state.log.length.min(parts::LOG_MOST);
    if parts::LOG_MOST - end < bytes.len() {
        return Err(Fault::TooLarge);
    }
    case_rooms::write(room, parts::LOG_AT + end, bytes);
    let log = Log {
        length: end + bytes.len(),
        ..state.log
    };
    Ok(State { log, ..state })
}

// The lines that say what the calls that follow are given; "the host of the commands that follow" is any number.
pub fn prepare(state: State, line: Line, room: &mut [u8], bytes: &[u8]) -> Result<State, Fault> {
    match line.word {
        Word::Parameters => parameters(state, room, bytes),
        Word::Log | Word::LogBytes => log(state, room, bytes),
        Word::Host => Ok(State {
            host: line.first,
            ..state
        }),
        _ => buffer(state, line.first),
    }
}

// What is expected, against what is found.
ghost use Rattle.std.specs.Prelude.{◌≡◌, ◌≤◌, length};
ghost use Rattle.rules.specs.Tables.{head_size, hosts};
ghost use Rattle.case_rooms.specs.Parts.{part as part_of};
ghost use Rattle.case_rooms.specs.Alike.{compared, compared_bytes};
ghost use Rattle.case_trial.specs.Asked.{barred_by_replay, barred as barredOf, replied as repliedOf, ended as ended_of, field_at, element_field, unit_field};
ghost use Rattle.case_trial.specs.Asked.{joined as joinedOf, record_of, host_record, against as againstOf};

use case_rooms::parts::{self, Table};
use case_rooms::{Call, Difference, Ending, Finding, Replayed, State};
use case_script::Line;
use case_script::class::Class;
use case_script::fault::Fault;
use case_script::word::Word;
use order::Reply;
use tables::Types;

const HOSTS: u32 = layout::HOSTS as u32;

// The largest number of a line.
const LARGEST: usize = 4294967295;

#[tactic(auto, unfolding(case_rooms::specs::Alike::compared, rules::specs::Choice::when))]
fn compare(what: Word, found: u32, expected: u32) -> Finding
    ensures { result ≡ compared what found expected }
{
    if found == expected {
        return Finding::Same;
    }
    Finding::Differs(Difference {
        what,
        at: 0,
        found,
        expected,
    })
}

// A value that a line asks for, or why there is none, against the one expected.
#[tactic(auto, unfolding(crate::specs::Asked::against))]
fn against(what: Word, value: Result<u32, Fault>, expected: u32) -> Result<Finding, Fault>
    ensures { result ≡ againstOf what value expected }
{
    Ok(compare(what, value?, expected))
}

// Bytes against those expected, of which there must be as many; the first of them stands at a place.
fn bytes(what: Word, at: u32, found: &[u8], expected: &[u8]) -> Result<Finding, Fault>
    ensures { result ≡ compared_bytes what at found.now expected.now }
{
    if found.len() != expected.len() {
        return Err(Fault::Outside);
    }
    let i = case_rooms::alike(found, expected);
    if i < found.len() {
        return Ok(Finding::Differs(Difference {
            what,
            at: (at as usize) + i,
            found: u32::from(found[i]),
            expected: u32::from(expected[i]),
        }));
    }
    Ok(Finding::Same)
}

// "the bytes of a table from byte AT on"
fn bytes_at(what: Word, at: u32, table: &[u8], expected: &[u8]) -> Result<Finding, Fault>
    ensures { result ≡ compared_bytes what at (part_of table.now at (length expected.now)) expected.now }
{
    let found = case_rooms::part(table, at as usize, expected.len());
    bytes(what, at, found, expected)
}

// "the reply of the last call"
#[tactic(auto, unfolding(crate::specs::Asked::replied))]
fn replied(reply: Reply, what: Word) -> u32
    ensures { result ≡ repliedOf reply what }
{
    match what {
        Word::Number => u32::from(reply.number),
        Word::Status => u32::from(reply.status),
        Word::Count => reply.count,
        Word::Preventers => u32::from(reply.preventers),
        _ => u32::from(reply.lowest),
    }
}

// "what the last replay ended with"
#[tactic(auto, unfolding(crate::specs::Asked::ended))]
fn ended(ended: Replayed, what: Word) -> u32
    ensures { result ≡ ended_of ended what }
{
    match what {
        Word::Number => ended.number,
        Word::Lines => ended.lines,
        Word::Place => ended.place.min(LARGEST) as u32,
        _ => ended.expected,
    }
}

// Why what a word asks for can not be judged behind a replay, if it can't.
#[tactic(auto, unfolding(crate::specs::Asked::barred_by_replay, crate::specs::Asked::barred_by_class))]
fn barred_by_replay(what: Word) -> Option<Fault>
    ensures { result ≡ barred_by_replay what }
{
    if what == Word::Number {
        return None;
    }
    match what.class() {
        Class::Reply | Class::Answer => Some(Fault::Replayed),
        _ => None,
    }
}

// The same behind the last call, which was a replay or not.
#[tactic(auto, unfolding(crate::specs::Asked::barred, crate::specs::Asked::barred_by_call))]
fn barred(ending: Ending, what: Word) -> Option<Fault>
    ensures { result ≡ barredOf ending what }
{
    match (ending, what.class()) {
        (Ending::Replayed(_), _) => barred_by_replay(what),
        (_, Class::Replayed) => Some(Fault::NotReplayed),
        _ => None,
    }
}

// A field of the element at a place.
#[tactic(auto, unfolding(crate::specs::Asked::field_at, crate::specs::Asked::field_of, rules::specs::Tables::places, rules::specs::Choice::when))]
fn field(elements: &[u8], what: Word, place: usize) -> Result<u32, Fault>
    ensures { result ≡ field_at elements.now what place }
{
    if elements.len() / layout::ELEMENT_SIZE <= place {
        return Err(Fault::Outside);
    }
    Ok(match what {
        Word::Volume => u32::from(tables::element::volume(elements, place)),
        Word::Source => u32::from(tables::element::source(elements, place)),
        Word::Holder => u32::from(tables::element::holder(elements, place)),
        Word::Id => u32::from(tables::element::id(elements, place)),
        _ => u32::from(tables::element::mark(elements, place)),
    })
}

// "the element at an address"
fn element(head: &[u8], elements: &[u8], what: Word, address: u32) -> Result<u32, Fault>
    ensures { result ≡ element_field head.now elements.now what address }
{
    if head.len() < layout::HEAD_SIZE {
        return Err(Fault::Outside);
    }
    let Some(place) = tables::find(tables::runs(head), address, Types::Any) else {
        return Err(Fault::NoElement);
    };
    field(elements, what, place)
}

// "unit holder, prevent mask and the number of empty shelves"
#[tactic(auto, unfolding(crate::specs::Asked::unit_field, crate::specs::Asked::unit_of, rules::specs::Choice::when))]
fn unit_field(head: &[u8], what: Word) -> Result<u32, Fault>
    ensures { result ≡ unit_field head.now what }
{
    if head.len() < layout::HEAD_SIZE {
        return Err(Fault::Outside);
    }
    Ok(match what {
        Word::Unit => u32::from(tables::head::unit(head)),
        Word::Mask => u32::from(tables::head::mask(head)),
        _ => u32::from(tables::head::panel(head)),
    })
}

// Key, ASC and ASCQ as one number.
fn joined(key: u8, asc: u8, ascq: u8) -> u32
    ensures { result ≡ joinedOf key asc ascq }
{
    u32::from(key) * 65536 + u32::from(wire::join(asc, ascq))
}

// The codes of a host that the unit knows: the sense where three bytes are expected, else the attention.
#[tactic(auto, unfolding(crate::specs::Asked::record_of))]
fn told(head: &[u8], what: Word, host: u8) -> u32
    requires whole { head_size ≤ length head.now }
    requires known { host ≤ hosts }
    ensures { result ≡ record_of head.now what host }
{
    match what {
        Word::Sense => joined(
            tables::head::key(head, host),
            tables::head::asc(head, host),
            tables::head::ascq(head, host),
        ),
        _ => joined(
            0,
            tables::head::attention(head, host),
            tables::head::attentionq(head, host),
        ),
    }
}

// "a host's record"
#[tactic(auto, unfolding(crate::specs::Asked::host_record, rules::specs::Sound::within, rules::specs::Choice::when))]
fn record(head: &[u8], what: Word, host: u32) -> Result<u32, Fault>
    ensures { result ≡ host_record head.now what host }
{
    if head.len() < layout::HEAD_SIZE {
        return Err(Fault::Outside);
    }
    if !(1..=HOSTS).contains(&host) {
        return Err(Fault::NoHost);
    }
    Ok(told(head, what, host as u8))
}

// The codes that a line gives, as one number.
fn codes(bytes: &[u8]) -> u32 {
    match bytes {
        [key, asc, ascq] => joined(*key, *asc, *ascq),
        [asc, ascq] => joined(0, *asc, *ascq),
        _ => 0,
    }
}

// A table that a call writes: the words that tell of its bytes and its length, and where it was kept.
struct Written {
    table: Table,
    bytes: Word,
    length: Word,
    kept_at: usize,
}

const WRITTEN: [Written; 3] = [
    Written {
        table: Table::Head,
        bytes: Word::Head,
        length: Word::LengthHead,
        kept_at: parts::KEPT_HEAD_AT,
    },
    Written {
        table: Table::Elements,
        bytes: Word::Elements,
        length: Word::LengthElements,
        kept_at: parts::KEPT_ELEMENTS_AT,
    },
    Written {
        table: Table::Search,
        bytes: Word::Search,
        length: Word::LengthSearch,
        kept_at: parts::KEPT_SEARCH_AT,
    },
];

// A table against what it was, where a length that changed is told as one.
fn kept_table(written: &Written, found: &[u8], before: &[u8]) -> Result<Finding, Fault> {
    if found.len() != before.len() {
        return Ok(Finding::Differs(Difference {
            what: written.length,
            at: 0,
            found: found.len().min(65536) as u32,
            expected: before.len().min(65536) as u32,
        }));
    }
    bytes(written.bytes, 0, found, before)
}

// "head, elements and search are byte for byte what they were before the last call"
fn kept(state: State, call: Call, room: &[u8]) -> Result<Finding, Fault> {
    for written in &WRITTEN {
        let found = state.table(written.table, room);
        let before = case_rooms::part(room, written.kept_at, call.kept[written.table as usize]);
        let finding = kept_table(written, found, before)?;
        if let Finding::Differs(_) = finding {
            return Ok(finding);
        }
    }
    Ok(Finding::Same)
}

// What a line asks of the tables.
fn of_tables(
    state: State,
    call: Call,
    line: Line,
    room: &[u8],
    expected: &[u8],
) -> Result<Finding, Fault> {
    let what = line.word;
    let head = state.table(Table::Head, room);
    let elements = state.table(Table::Elements, room);
    match what.class() {
        Class::Table => bytes_at(
            what,
            line.first,
            state.table(Table::of(what), room),
            expected,
        ),
        Class::Kept => kept(state, call, room),
        Class::Element => against(what, element(head, elements, what, line.first), line.second),
        Class::Unit => against(what, unit_field(head, what), line.first),
        _ => against(what, record(head, what, line.first), codes(expected)),
    }
}

// The number that a line asks for of what the last call handed back.
fn handed_back(ending: Ending, what: Word) -> u32 {
    match ending {
        Ending::Answered(reply, _) => replied(reply, what),
        Ending::Replayed(replayed) => ended(replayed, what),
    }
}

pub fn judge(state: State, line: Line, room: &[u8], expected: &[u8]) -> Result<Finding, Fault> {
    let call = state.last.ok_or(Fault::NoCall)?;
    let what = line.word;
    if let Some(why) = barred(call.ending, what) {
        return Err(why);
    }
    match what.class() {
        Class::Reply | Class::Replayed => {
            Ok(compare(what, handed_back(call.ending, what), line.first))
        }
        Class::Answer => {
            let answer = case_rooms::part(room, parts::ANSWER_AT, state.answered());
            bytes_at(what, line.first, answer, expected)
        }
        _ => of_tables(state, call, line, room, expected),
    }
}

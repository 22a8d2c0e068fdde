// What a case has come to, and the room that its tables, parameters, log and answers stand in.
#![tactic(auto)]

pub mod parts;

ghost use Rattle.std.specs.Prelude.{◌≡◌, length, replicate};
ghost use Rattle.rules.specs.Bytes.{put};
ghost use Rattle.case_rooms.specs.Parts.{part as part_of};
ghost use Rattle.case_rooms.specs.Alike.{alike as alikeOf, untouched as untouchedOf};
ghost use Rattle.case_rooms.specs.Lying.{size_of, lies};

use case_script::fault::Fault;
use case_script::word::Word;
use order::Reply;
use parts::Table;

// "Before each call the whole answer buffer is filled with EEh."
pub const UNTOUCHED: u8 = 0xEE;

// The bytes of a room from a place on, as many of the n as there are.
pub fn part(room: &[u8], from: usize, n: usize) -> &[u8]
    ensures { result.now ≡ part_of room.now from n }
{
    let start = from.min(room.len());
    let end = start + n.min(room.len() - start);
    &room[start..end]
}

// The n bytes from a place on are v, as many of them as there are.
pub fn paint(room: &mut [u8], from: usize, n: usize, v: u8)
    ensures { room.new ≡ put room.old from (replicate n v) }
{
    let start = from.min(room.len());
    let end = start + n.min(room.len() - start);
    room[start..end].fill(v);
}

// Bytes from a place on, as many of them as there is room for.
pub fn write(room: &mut [u8], at: usize, bytes: &[u8])
    ensures { room.new ≡ put room.old at bytes.now }
{
    let start = at.min(room.len());
    let n = bytes.len().min(room.len() - start);
    let end = start + n;
    room[start..end].copy_from_slice(&bytes[..n]);
}

// How many bytes at the front are the same.
pub fn alike(found: &[u8], expected: &[u8]) -> usize
    ensures { result ≡ alikeOf found.now expected.now }
{
    let both = found.len().min(expected.len());
    found
        .iter()
        .zip(expected)
        .position(|(a, b)| *a != *b)
        .unwrap_or(both)
}

// How many bytes at the front are still EEh.
pub fn untouched(xs: &[u8]) -> usize
    ensures { result ≡ alikeOf xs.now (untouchedOf (length xs.now)) }
{
    xs.iter().position(|x| *x != UNTOUCHED).unwrap_or(xs.len())
}

// The log of a case: how long it is; and, once it was replayed, where the next `resume` goes on.
#[derive(Clone, Copy)]
pub struct Log {
    pub length: usize,
    pub next: Option<Next>,
}

// Where a replay goes on, and with which number.
#[derive(Clone, Copy)]
pub struct Next {
    pub at: usize,
    pub expected: u32,
}

// What a replay ended with.
#[derive(Clone, Copy)]
pub struct Replayed {
    pub number: u32,
    pub lines: u32,
    pub place: usize,
    pub expected: u32,
}

// What a call ended with: a command or an event, and how long the answer buffer was; or a replay.
#[derive(Clone, Copy)]
pub enum Ending {
    Answered(Reply, usize),
    Replayed(Replayed),
}

// A call that was made: how long the tables were before it, and what it ended with.
#[derive(Clone, Copy)]
pub struct Call {
    pub kept: [usize; parts::TABLES],
    pub ending: Ending,
}

// What a case has come to; the tables themselves stand in the room.
#[derive(Clone, Copy)]
pub struct State {
    // how long the tables are, in their order
    pub sizes: [usize; parts::TABLES],
    // the host of the commands that follow, the length of their answer buffer, and how many parameter bytes the next one has
    pub host: u32,
    pub buffer: usize,
    pub parameters: usize,
    pub log: Log,
    // the last call, if there was one
    pub last: Option<Call>,
}

impl State {
    // "Everything is as at the start: no tables, host 1, no parameters, an empty log, an answer buffer of 26,664 bytes."
    pub fn fresh() -> State
        ensures { result.last ≡ None }
    {
        State {
            sizes: [0; parts::TABLES],
            host: 1,
            buffer: 26664,
            parameters: 0,
            log: Log {
                length: 0,
                next: None,
            },
            last: None,
        }
    }

    // The number that the last call ended with.
    pub fn number(self) -> u32
        ensures { self.last ≡ None → result ≡ 0 }
    {
        match self.last {
            None => 0,
            Some(
                Call {
                    ending: Ending::Answered(reply, _),
                    ..
                },
            ) => u32::from(reply.number),
            Some(
                Call {
                    ending: Ending::Replayed(ended),
                    ..
                },
            ) => ended.number,
        }
    }

    // How long the answer buffer of the last call is; a replay has none.
    pub fn answered(self) -> usize
        ensures { self.last ≡ None → result ≡ 0 }
    {
        match self.last {
            Some(
                Call {
                    ending: Ending::Answered(_, length),
                    ..
                },
            ) => length,
            _ => 0,
        }
    }

    // The length of a table.
    pub fn length(self, table: Table) -> usize
        ensures { result ≡ size_of self table }
    {
        self.sizes[table as usize]
    }

    // A table as it lies.
    pub fn table(self, table: Table, room: &[u8]) -> &[u8]
        ensures { result.now ≡ lies self table room.now }
    {
        part(room, table.part().at, self.length(table))
    }

    // A table has another length.
    pub fn resized(self, table: Table, n: usize) -> State
        ensures { result.last ≡ self.last }
    {
        let mut behind = self;
        behind.sizes[table as usize] = n;
        behind
    }
}

// Where something is not as expected. `what` is the word that asked, but for `kept` that of the table; `at` is the byte, where bytes were compared.
#[derive(Clone, Copy)]
pub struct Difference {
    pub what: Word,
    pub at: usize,
    pub found: u32,
    pub expected: u32,
}

#[derive(Clone, Copy)]
pub enum Finding {
    // set up or called; nothing was asked
    Done,
    Same,
    Differs(Difference),
}

// What a line does: what the case has come to behind it, and what was found, or why the line can't be obeyed.
#[derive(Clone, Copy)]
pub struct Effect {
    pub state: State,
    pub finding: Result<Finding, Fault>,
}

impl Effect {
    // Of a line that asks nothing: where it can't be obeyed, all is as it was.
    pub fn behind(before: State, after: Result<State, Fault>) -> Effect
        ensures { (why : _) → after ≡ Err why → result ≡ record { state = before; finding = Err why } }
    {
        match after {
            Ok(state) => Effect {
                state,
                finding: Ok(Finding::Done),
            },
            Err(why) => Effect {
                state: before,
                finding: Err(why),
            },
        }
    }
}

// Replay of a recorded log. The tables are checked once, at the start: every line leaves sound tables sound, and their ranges as they are.
#![tactic(auto)]

ghost use Rattle.std.specs.Prelude.{◌≡◌, true};
ghost use Rattle.rules.specs.Tables.{Rest, lent, searching};
ghost use Rattle.rules.specs.Sound.{sound};
ghost use Rattle.rules.specs.Replay.{turns as turnsOf, replay as replayOf};
ghost use Rattle.tables.specs.Lent.{rest_of};
ghost use Rattle.log_steps.specs.Recorded.{Given};
ghost use Rattle.log_call.specs.Turned.{Kept};
ghost use Rattle.replay.specs.Ended.{ended};

use layout::{HEAD_SIZE, SEARCH_SIZE};
use log_line::DigitTable;
use tables::{Fixed, Range};

// What a call ends with, as C reads it: house number 0, 1 or 10, each written at the one place where replay ends so, lines applied, bytes that they take, the number expected next.
#[repr(C)]
#[derive(Clone, Copy, PartialEq, Eq)]
pub struct Replayed {
    pub number: u32,
    pub lines: u32,
    pub place: usize,
    pub expected: u32,
}

// The longest line has 512 bytes, and a byte takes two of them.
const ROOM: usize = 256;

fn told(number: u32, lines: u32, place: usize, expected: u32) -> Replayed
    ensures { result ≡ record { number = number; lines = lines; place = place; expected = expected } }
{
    Replayed {
        number,
        lines,
        place,
        expected,
    }
}

// "Each call does at most a stated number of lines": line by line, on sound tables.
fn turns(
    runs: [Range; 4],
    head: &mut [u8; HEAD_SIZE],
    elements: &mut [u8],
    fixed: Fixed<'_>,
    search: &mut [u8; SEARCH_SIZE],
    digits: &DigitTable,
    log: &[u8],
    expected: u32,
    budget: u32,
) -> Replayed
    requires { Kept runs head.old elements.old fixed search.old }
    ensures { (rest : Rest) → Given rest fixed.entry → sound (lent head.old elements.old (searching rest search.old)) ≡ true → ended result (lent head.new elements.new (searching rest search.new)) ≡ turnsOf budget (lent head.old elements.old (searching rest search.old)) log.now expected }
{
    let mut block = [0u8; ROOM];
    let mut list = [0u8; ROOM];
    let mut place: usize = 0;
    let mut next: u32 = expected;
    for lines in 0..budget {
        if place == log.len() {
            return told(0, lines, place, next);
        }
        let text = &log[place..];
        match log_call::turn(
            runs, head, elements, fixed, search, digits, next, text, &mut block, &mut list,
        ) {
            None => return told(10, lines, place, next),
            Some(taken) => place += taken,
        }
        next += 1;
    }
    told(0, budget, place, next)
}

// "Replay starts from given tables and an expected number ..; unsound tables give 1."
pub fn replay(
    head: &mut [u8],
    elements: &mut [u8],
    fixed: Fixed<'_>,
    search: &mut [u8],
    log: &[u8],
    expected: u32,
    budget: u32,
) -> Replayed
    ensures { ended result (lent head.new elements.new (rest_of fixed.entry search.new)) ≡ replayOf (lent head.old elements.old (rest_of fixed.entry search.old)) log.now expected budget }
{
    let Some(runs) = sound::check(head, elements, fixed, search) else {
        return told(1, 0, 0, expected);
    };
    // Sound tables have a head and a search of their sizes.
    let head = head.as_mut_array().unwrap();
    let search = search.as_mut_array().unwrap();
    let digits = log_line::tabulate();
    turns(
        runs, head, elements, fixed, search, &digits, log, expected, budget,
    )
}

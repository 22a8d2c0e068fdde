// What a recorded line does: a command whose answer is not kept, or an event. The tables are sound, and are not checked here.
#![tactic(auto)]

ghost use Rattle.std.specs.Prelude.{◌≡◌, [], true, ℕ, ◌≤◌, length};
ghost use Rattle.rules.specs.Tables.{lent, searching, Rest};
ghost use Rattle.rules.specs.Sound.{sound};
ghost use Rattle.rules.specs.Command.{Command};
ghost use Rattle.rules.specs.Log.{event_of, entry_of};
ghost use Rattle.rules.specs.Replay.{after_line, turn_on, turn as turn_of};
ghost use Rattle.log_steps.specs.Recorded.{Given};
ghost use Rattle.log_call.specs.Event.{recorded};
ghost use Rattle.log_call.specs.Turned.{Kept, turned, Taken};

use events::Event;
use layout::{HEAD_SIZE, SEARCH_SIZE};
use log_line::DigitTable;
use tables::{Fixed, Range};

// The first bytes of the three events.
const IMPORT: u8 = 0x01;

const EXPORT: u8 = 0x02;

const RESET: u8 = 0x03;

// House numbers 2 to 4, then the steps.
fn obey(
    runs: [Range; 4],
    head: &mut [u8; HEAD_SIZE],
    elements: &mut [u8],
    fixed: Fixed<'_>,
    search: &mut [u8; SEARCH_SIZE],
    host: u8,
    block: &[u8],
    list: &[u8],
)
    requires { Kept runs head.old elements.old fixed search.old }
    ensures { (rest : Rest) → Given rest fixed.entry → sound (lent head.old elements.old (searching rest search.old)) ≡ true → lent head.new elements.new (searching rest search.new) ≡ after_line (lent head.old elements.old (searching rest search.old)) (Command (record { host = host; block = block.now; parameters = list.now; buffer = [] })) }
{
    let Some(host) = numbers::host_of(u32::from(host)) else {
        return;
    };
    if !numbers::block_fits(block) {
        return;
    }
    let op = operation::decode(block[0]);
    if !numbers::parameters_fit(op, block, list) {
        return;
    }
    log_steps::carry_out(op, runs, head, elements, fixed, search, host, block, list);
}

// "01 import, 02 export, 03 reset, with address and volume, address, or nothing as parameters"
#[tactic(auto, using(crate::proofs::Events::forms), unfolding(crate::specs::Event::recorded))]
fn event_of(block: &[u8], list: &[u8]) -> Option<Event>
    ensures { (k : ℕ) → recorded k result ≡ event_of k block.now list.now }
{
    let [kind] = block else {
        return None;
    };
    match (*kind, list.len()) {
        (IMPORT, 4) => Some(Event::Import {
            address: u32::from(wire::word_at(list, 0)),
            volume: u32::from(wire::word_at(list, 2)),
        }),
        (EXPORT, 2) => Some(Event::Export {
            address: u32::from(wire::word_at(list, 0)),
        }),
        (RESET, 0) => Some(Event::Reset),
        _ => None,
    }
}

// A line of the expected number is carried out, if it has the form: whether it has, and no more to hand back, so that an `Option` of nothing would be no plainer.
fn carry(
    runs: [Range; 4],
    head: &mut [u8; HEAD_SIZE],
    elements: &mut [u8],
    fixed: Fixed<'_>,
    search: &mut [u8; SEARCH_SIZE],
    host: u8,
    block: &[u8],
    list: &[u8],
) -> bool
    requires { Kept runs head.old elements.old fixed search.old }
    ensures { (rest : Rest) (e : ℕ) → Given rest fixed.entry → sound (lent head.old elements.old (searching rest search.old)) ≡ true → record { applied = result; tables = lent head.new elements.new (searching rest search.new) } ≡ turn_on (lent head.old elements.old (searching rest search.old)) e (entry_of e host block.now list.now) }
{
    if host != 0 {
        obey(runs, head, elements, fixed, search, host, block, list);
        return true;
    }
    match event_of(block, list) {
        Some(event) => {
            events::occur(runs, head, elements, fixed.tags, search, event);
            true
        }
        None => false,
    }
}

// The line that a text begins with, if it has the form and the number: it is carried out, and takes so many bytes with its line feed. Its own bytes are decoded into
// two rooms.
pub fn turn(
    runs: [Range; 4],
    head: &mut [u8; HEAD_SIZE],
    elements: &mut [u8],
    fixed: Fixed<'_>,
    search: &mut [u8; SEARCH_SIZE],
    digits: &DigitTable,
    expected: u32,
    text: &[u8],
    block: &mut [u8],
    list: &mut [u8],
) -> Option<usize>
    requires kept { Kept runs head.old elements.old fixed search.old }
    requires in_bounds { (256 ≤ length block.old) × (256 ≤ length list.old) }
    ensures search_after { (rest : Rest) → Given rest fixed.entry → sound (lent head.old elements.old (searching rest search.old)) ≡ true → turned result (lent head.new elements.new (searching rest search.new)) ≡ turn_of (lent head.old elements.old (searching rest search.old)) expected text.now }
    ensures taken { Taken result text.now }
{
    let line = log_line::read_line(digits, text, block, list)?;
    if line.number != expected {
        return None;
    }
    let block = &block[..line.block];
    let list = &list[..line.list];
    if !carry(runs, head, elements, fixed, search, line.host, block, list) {
        return None;
    }
    Some(line.end + 1)
}

// The three events: import, export and reset. House number 1 is judged before they are called; numbers 6 to 9 in a crate of their own.
#![tactic(auto)]

ghost use Rattle.std.specs.Prelude.{◌≡◌, ◌≤◌, true, List, [], ℕ, length};
ghost use Rattle.rules.specs.Tables.{head_size, hosts, places, lent, searching, changes, announced_to, announced, Rest};
ghost use Rattle.rules.specs.Sound.{sound};
ghost use Rattle.rules.specs.Order.{outcome};
ghost use Rattle.rules.specs.Events.{importing, exporting, restarted_from, resetting};
ghost use Rattle.order.specs.Ending.{ended};
ghost use Rattle.ports.specs.Judged.{meaning, Within, Ported, Importable};
ghost use Rattle.events.specs.Restarted.{restarted_at};
ghost use Rattle.events.specs.Occurring.{occurring, Possible};

use frees::Whose;
use order::{House, Reply, Status};
use ports::Fill;
use tables::{Host, Range};

// What happens at the library's door and panel: a volume comes into an import/export element, or out of it, or the unit is reset.
#[derive(Clone, Copy, PartialEq, Eq)]
pub enum Event {
    Import { address: u32, volume: u32 },
    Export { address: u32 },
    Reset,
}

// One host's attention, if it has none.
fn announce_to(head: &mut [u8], host: Host, asc: u8, ascq: u8)
    requires head_long { head_size ≤ length head.old }
    ensures { head.new ≡ announced_to asc ascq host.number head.old }
{
    if tables::head::attention(head, host.number) == 0 {
        tables::head::attend(head, host.number, asc, ascq);
    }
}

// "set attention .. for each host with none"
fn announce(head: &mut [u8], asc: u8, ascq: u8)
    requires head_long { head_size ≤ length head.old }
    ensures { head.new ≡ announced head.old asc ascq }
{
    for number in 1..=layout::HOSTS {
        announce_to(head, Host { number }, asc, ascq);
    }
}

// What was judged is carried out.
fn carry_out(head: &mut [u8], elements: &mut [u8], ruling: Result<Fill, House>) -> Reply
    requires head_long { head_size ≤ length head.old }
    requires within { Within (places elements.old) ruling }
    ensures { (rest : Rest) → ended result (lent head.new elements.new rest) [] ≡ outcome (lent head.old elements.old rest) [] (meaning ruling) }
{
    match ruling {
        Ok(fill) => {
            tables::element::fill(elements, fill.place, fill.volume, 0, fill.mark);
            announce(head, 0x28, 0x01);
            order::told(Status::Good, 0)
        }
        Err(why) => order::numbered(why),
    }
}

// "Import fills an element with source 0, mark 1"
pub fn import(
    runs: [Range; 4],
    head: &mut [u8],
    elements: &mut [u8],
    tags: &[u8],
    address: u32,
    volume: u32,
) -> Reply
    requires head_long { head_size ≤ length head.old }
    requires importable { Importable runs head.old elements.old tags.now }
    ensures { (rest : Rest) → rest.tags ≡ tags.now → sound (lent head.old elements.old rest) ≡ true → ended result (lent head.new elements.new rest) [] ≡ outcome (lent head.old elements.old rest) [] (importing (lent head.old elements.old rest) address volume) }
{
    let ruling = ports::judge_import(runs, head, elements, tags, address, volume);
    carry_out(head, elements, ruling)
}

// "export empties it, mark 0, source 0"
pub fn export(runs: [Range; 4], head: &mut [u8], elements: &mut [u8], address: u32) -> Reply
    requires head_long { head_size ≤ length head.old }
    requires ported { Ported runs head.old elements.old }
    ensures { (rest : Rest) → sound (lent head.old elements.old rest) ≡ true → ended result (lent head.new elements.new rest) [] ≡ outcome (lent head.old elements.old rest) [] (exporting (lent head.old elements.old rest) address) }
{
    let ruling = ports::judge_export(runs, head, elements, address);
    carry_out(head, elements, ruling)
}

// "clears .. sense, sets attention 29h/00h": of one host
fn restart_host(head: &mut [u8], host: Host)
    requires head_long { head_size ≤ length head.old }
    ensures { head.new ≡ restarted_at host.number head.old }
{
    tables::head::wipe(head, host.number);
    tables::head::attend(head, host.number, 0x29, 0x00);
}

// "for all"; the loop is that of `announce` but for its one step, and a closure for the step would need a longer contract than both loops have.
fn restart(head: &mut [u8])
    requires head_long { head_size ≤ length head.old }
    ensures { (elements : List ℕ) (rest : Rest) → lent head.new elements rest ≡ changes (restarted_from hosts 1) (lent head.old elements rest) }
{
    for number in 1..=layout::HOSTS {
        restart_host(head, Host { number });
    }
}

// "Reset frees all reservations, clears mask and sense, sets attention 29h/00h for all; volumes stay."; of a search: "reset clears it"
pub fn reset(head: &mut [u8], elements: &mut [u8], search: &mut [u8; layout::SEARCH_SIZE]) -> Reply
    requires head_long { head_size ≤ length head.old }
    ensures { (rest : Rest) → sound (lent head.old elements.old (searching rest search.old)) ≡ true → ended result (lent head.new elements.new (searching rest search.new)) [] ≡ outcome (lent head.old elements.old (searching rest search.old)) [] (resetting (lent head.old elements.old (searching rest search.old))) }
{
    tables::head::hold_unit(head, 0);
    frees::free(elements, Whose::Anyone);
    search::forget(search);
    tables::head::set_mask(head, 0);
    restart(head);
    order::told(Status::Good, 0)
}

// An event, whichever it is.
pub fn occur(
    runs: [Range; 4],
    head: &mut [u8],
    elements: &mut [u8],
    tags: &[u8],
    search: &mut [u8; layout::SEARCH_SIZE],
    event: Event,
) -> Reply
    requires head_long { head_size ≤ length head.old }
    requires possible { Possible event runs head.old elements.old tags.now }
    ensures { (rest : Rest) → rest.tags ≡ tags.now → sound (lent head.old elements.old (searching rest search.old)) ≡ true → ended result (lent head.new elements.new (searching rest search.new)) [] ≡ outcome (lent head.old elements.old (searching rest search.old)) [] (occurring (lent head.old elements.old (searching rest search.old)) event) }
{
    match event {
        Event::Import { address, volume } => import(runs, head, elements, tags, address, volume),
        Event::Export { address } => export(runs, head, elements, address),
        Event::Reset => reset(head, elements, search),
    }
}

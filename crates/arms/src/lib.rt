// "Any free arm": which transport a MOVE or EXCHANGE uses, and where it stands.
#![tactic(auto)]

ghost use Rattle.std.specs.Prelude.{◌≡◌, ◌+◌, ◌<◌, ◌≤◌, length, eqb};
ghost use Rattle.rules.specs.Choice.{when};
ghost use Rattle.rules.specs.Tables.{places, holder};
ghost use Rattle.rules.specs.Roster.{slots, first_transport};
ghost use Rattle.rules.specs.Order.{other};
ghost use Rattle.rules.specs.Moves.{open_transport};
ghost use Rattle.tables.specs.Ranges.{laid};
ghost use Rattle.tables.specs.LookUp.{found};
ghost use Rattle.tables.specs.declared.Types.TheVariants.{Transport};
ghost use Rattle.arms.specs.Used.{open_at, arm_at, Told, is_open};

use tables::{Range, Types};

// The element at a place is held by another host.
#[tactic(auto, unfolding(rules::specs::Tables::places))]
pub fn place_held(elements: &[u8], host: u8, place: usize) -> bool
    requires { place < places elements.now }
    ensures { result ≡ other host (holder elements.now place) }
{
    order::other(host, tables::element::holder(elements, place))
}

// Of a run that begins at a place, the address of the first transport that no other host holds; `none` where there is none.
#[tactic(auto, unfolding(rules::specs::Tables::places))]
fn open_in(elements: &[u8], host: u8, r: Range, place: usize, none: u32) -> u32
    requires { place + r.count ≤ places elements.now }
    ensures { result ≡ open_transport host elements.now (slots r.kind r.first place r.count) none }
{
    if r.kind != layout::TRANSPORT {
        return none;
    }
    for k in 0..r.count {
        if !place_held(elements, host, place + (k as usize)) {
            return (r.first as u32) + (k as u32);
        }
    }
    none
}

// "the lowest-addressed transport not held by another host", and the first where each is held: each run has what is open in those behind it to fall back on. That the runs are those of the table is asked here and below: a fact of both together.
fn open_transport(runs: [Range; 4], elements: &[u8], host: u8) -> u32
    requires { length (laid runs) ≡ places elements.now }
    ensures { result ≡ open_at (laid runs) elements.now host }
{
    let [a, b, c, d] = runs;
    let second = a.count as usize;
    let third = second + (b.count as usize);
    let fourth = third + (c.count as usize);
    let first = tables::first_transport(runs) as u32;
    let in_fourth = open_in(elements, host, d, fourth, first);
    let in_third = open_in(elements, host, c, third, in_fourth);
    let in_second = open_in(elements, host, b, second, in_third);
    open_in(elements, host, a, 0, in_second)
}

// Where it stands.
fn open_arm(runs: [Range; 4], elements: &[u8], host: u8) -> Option<usize>
    requires { length (laid runs) ≡ places elements.now }
    ensures { result ≡ found Transport (laid runs) (open_at (laid runs) elements.now host) }
{
    tables::find(runs, open_transport(runs, elements, host), Types::Transport)
}

// The address that is looked up first: the one that is named, and for transport 0 that of the first transport.
#[tactic(auto, unfolding(rules::specs::Choice::when))]
fn first_choice(runs: [Range; 4], address: u16) -> u32
    ensures { result ≡ when (eqb address 0) (first_transport (laid runs)) address }
{
    if address == 0 {
        return tables::first_transport(runs) as u32;
    }
    address as u32
}

// There is a transport, and no other host holds it.
#[tactic(auto, unfolding(crate::specs::Used::is_open, tables::specs::LookUp::on_found))]
fn is_open(elements: &[u8], host: u8, arm: Option<usize>) -> bool
    requires { Told (places elements.now) arm }
    ensures { result ≡ is_open elements.now host arm }
{
    arm.is_some_and(|place| !place_held(elements, host, place))
}

// "A transport named by its address is as before"; for transport 0 the first is looked at first, and the others where it is held. There is one look-up for both,
// and one call for the others, which the compiler then puts in place: the runs are not copied for it.
pub fn arm_of(runs: [Range; 4], elements: &[u8], host: u8, address: u16) -> Option<usize>
    requires { length (laid runs) ≡ places elements.now }
    ensures { result ≡ found Transport (laid runs) (arm_at (laid runs) elements.now host address) }
{
    let first = tables::find(runs, first_choice(runs, address), Types::Transport);
    if address != 0 || is_open(elements, host, first) {
        return first;
    }
    open_arm(runs, elements, host)
}

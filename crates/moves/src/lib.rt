// MOVE MEDIUM and EXCHANGE MEDIUM from step 5 on: judged by reading only, then carried out.
#![tactic(auto)]

ghost use Rattle.std.specs.Prelude.{◌≡◌, List, ℕ, ◌+◌, ◌-◌, ◌<◌, ◌≤◌, length, IfOk};
ghost use Rattle.rules.specs.Bytes.{word};
ghost use Rattle.rules.specs.Tables.{head_size, most_elements, places, holder, panel, shown, lent, Rest};
ghost use Rattle.rules.specs.Order.{outcome, other};
ghost use Rattle.order.specs.Ending.{ended};
ghost use Rattle.tables.specs.Ranges.{laid};
ghost use Rattle.moves.specs.Judged.{asked, shelf_at, carries, Within, move_at, exchange_held, hinders, exchange_at, move_spots, exchange_spots, judged_by, carry_verdict, unfit_at, shifted, carried, swapped, shelf, Able, Ready};

use order::{Cause, Refusal, Reply};
use tables::{Host, Range, Spot};

// Where the range of the drives stands in the head: "in the order transport, storage, import/export, drive"
const DRIVES: usize = 3 * layout::RANGE_SIZE;

// Which of the two commands it is.
#[derive(Clone, Copy, PartialEq, Eq)]
pub enum Carry {
    Move,
    Exchange,
}

// What is carried: types and places of the elements to carry from and to, with the volumes that stand there.
#[derive(Clone, Copy)]
pub enum Carriage {
    Move {
        from: Spot,
        to: Spot,
        volume: u16,
    },
    Exchange {
        from: Spot,
        first: Spot,
        second: Spot,
        brought: u16,
        displaced: u16,
    },
}

// What a command is judged by: the tables that it reads, its host and its block.
#[derive(Clone, Copy)]
struct Asked<'a> {
    head: &'a [u8],
    elements: &'a [u8],
    generations: &'a [u8],
    masks: &'a [u8],
    host: u8,
    block: &'a [u8; 12],
}

// ---- judged

impl<'a> Asked<'a> {
    // The address in two bytes of the block.
    fn address(self, at: usize) -> u16
        requires { at ≤ 10 }
        ensures { result ≡ word self.entry.block.now at }
    {
        let block = self.block;
        wire::word_at(block, at)
    }

    // The element at a place is held by another host.
    fn held(self, place: usize) -> bool
        requires { place < places self.elements.now }
        ensures { result ≡ other self.entry.host (holder self.entry.elements.now place) }
    {
        arms::place_held(self.elements, self.host, place)
    }

    // "when a drive can't take a cartridge's generation": the element at an address is by its type a drive, and does not take a volume.
    #[tactic(auto, unfolding(crate::specs::Judged::unfit_at, rules::specs::Choice::all_of, rules::specs::Choice::when, rules::specs::Roster::range))]
    fn unfit(self, kind: u8, address: u16, volume: u16) -> bool
        requires head_long { head_size ≤ length self.head.now }
        ensures { result ≡ unfit_at self.entry.head.now self.entry.generations.now self.entry.masks.now kind address volume }
    {
        if kind != layout::DRIVE {
            return false;
        }
        let head = self.head;
        let first = wire::word_at(head, DRIVES);
        let drive = (address as usize).saturating_sub(first as usize);
        !fitting::drive_takes(self.generations, self.masks, drive, volume)
    }

    // MOVE, steps 6 to 8, and what stands behind them: the transport's place, the source, the destination.
    #[tactic(auto, unfolding(crate::specs::Judged::move_at, rules::specs::Choice::when, rules::specs::Choice::differ, rules::specs::Tables::places))]
    fn move_at(self, arm: usize, from: Spot, to: Spot) -> Result<Carriage, Refusal>
        requires head_long { head_size ≤ length self.head.now }
        requires arm_bound { arm < places self.elements.now }
        requires place_bound { from.place < places self.elements.now }
        requires place_bound_2 { to.place < places self.elements.now }
        ensures value { result ≡ asked move_at self.entry arm from to }
        ensures within { IfOk result (Within (places self.entry.elements.now)) }
    {
        if self.held(arm) || self.held(from.place) || self.held(to.place) {
            return Err(Refusal::Conflict);
        }
        let volume = tables::element::volume(self.elements, from.place);
        if volume == 0 {
            return Err(Refusal::For(Cause::SourceEmpty));
        }
        if tables::element::volume(self.elements, to.place) != 0 {
            return Err(Refusal::For(Cause::DestinationFull));
        }
        if self.unfit(to.kind, self.address(6), volume) {
            return Err(Refusal::For(Cause::IncompatibleMedium));
        }
        Ok(Carriage::Move { from, to, volume })
    }

    // MOVE from step 5 on, from the transport's place on: "4-5 source, 6-7 destination", which "must be elements and no transport".
    #[tactic(auto, unfolding(crate::specs::Judged::move_spots, crate::specs::Judged::on_place, rules::specs::Choice::when, tables::specs::LookUp::spot_of))]
    fn move_spots(self, runs: [Range; 4], arm: usize) -> Result<Carriage, Refusal>
        requires head_long { head_size ≤ length self.head.now }
        requires runs_len { length (laid runs) ≡ places self.elements.now }
        requires arm_bound { arm < places self.elements.now }
        ensures value { result ≡ asked (move_spots (laid runs)) self.entry arm }
        ensures within { IfOk result (Within (places self.entry.elements.now)) }
    {
        let from = tables::spot_of(runs, self.address(4) as u32);
        if from.kind <= layout::TRANSPORT {
            return Err(Refusal::For(Cause::WrongAddress));
        }
        let to = tables::spot_of(runs, self.address(6) as u32);
        if to.kind <= layout::TRANSPORT {
            return Err(Refusal::For(Cause::WrongAddress));
        }
        self.move_at(arm, from, to)
    }

    // EXCHANGE, step 6: whether an element touched is held by another host.
    #[tactic(auto, unfolding(crate::specs::Judged::exchange_held, rules::specs::Choice::any_of, rules::specs::Choice::when))]
    fn exchange_held(self, arm: usize, from: usize, first: usize, second: usize) -> bool
        requires arm_bound { arm < places self.elements.now }
        requires from_bound { from < places self.elements.now }
        requires first_bound { first < places self.elements.now }
        requires second_bound { second < places self.elements.now }
        ensures { result ≡ exchange_held self.entry.elements.now self.entry.host arm from first second }
    {
        self.held(arm) || self.held(from) || self.held(first) || self.held(second)
    }

    // EXCHANGE, step 8: the second destination is full, and not the source.
    #[tactic(auto, unfolding(crate::specs::Judged::hinders, rules::specs::Choice::when, rules::specs::Choice::differ, rules::specs::Tables::places))]
    fn hinders(self, second: usize, same: bool) -> bool
        requires { second < places self.elements.now }
        ensures { result ≡ hinders self.entry.elements.now second same }
    {
        !same && tables::element::volume(self.elements, second) != 0
    }

    // EXCHANGE, steps 6 to 8, and what stands behind them: the volume that is brought goes to bytes 6-7, the one displaced to bytes 8-9. `same`: the second
    // destination is the source.
    #[tactic(auto, unfolding(crate::specs::Judged::exchange_at, rules::specs::Choice::when, rules::specs::Tables::places))]
    fn exchange_at(
        self,
        arm: usize,
        from: Spot,
        first: Spot,
        second: Spot,
        same: bool,
    ) -> Result<Carriage, Refusal>
        requires head_long { head_size ≤ length self.head.now }
        requires arm_bound { arm < places self.elements.now }
        requires place_bound { from.place < places self.elements.now }
        requires place_bound_2 { first.place < places self.elements.now }
        requires place_bound_3 { second.place < places self.elements.now }
        ensures value { result ≡ asked exchange_at self.entry arm from first second same }
        ensures within { IfOk result (Within (places self.entry.elements.now)) }
    {
        if self.exchange_held(arm, from.place, first.place, second.place) {
            return Err(Refusal::Conflict);
        }
        let brought = tables::element::volume(self.elements, from.place);
        let displaced = tables::element::volume(self.elements, first.place);
        if brought == 0 || displaced == 0 {
            return Err(Refusal::For(Cause::SourceEmpty));
        }
        if self.hinders(second.place, same) {
            return Err(Refusal::For(Cause::DestinationFull));
        }
        if self.unfit(first.kind, self.address(6), brought)
            || self.unfit(second.kind, self.address(8), displaced)
        {
            return Err(Refusal::For(Cause::IncompatibleMedium));
        }
        Ok(Carriage::Exchange {
            from,
            first,
            second,
            brought,
            displaced,
        })
    }

    // EXCHANGE from step 5 on, from the transport's place on: "4-5 source, 6-7 first destination, 8-9 second"
    #[tactic(auto, unfolding(crate::specs::Judged::exchange_spots, crate::specs::Judged::on_place, rules::specs::Choice::when, tables::specs::LookUp::spot_of))]
    fn exchange_spots(self, runs: [Range; 4], arm: usize) -> Result<Carriage, Refusal>
        requires head_long { head_size ≤ length self.head.now }
        requires runs_len { length (laid runs) ≡ places self.elements.now }
        requires arm_bound { arm < places self.elements.now }
        ensures value { result ≡ asked (exchange_spots (laid runs)) self.entry arm }
        ensures within { IfOk result (Within (places self.entry.elements.now)) }
    {
        let source = self.address(4);
        let nearer = self.address(6);
        let farther = self.address(8);
        let from = tables::spot_of(runs, source as u32);
        if from.kind <= layout::TRANSPORT {
            return Err(Refusal::For(Cause::WrongAddress));
        }
        let first = tables::spot_of(runs, nearer as u32);
        if first.kind <= layout::TRANSPORT {
            return Err(Refusal::For(Cause::WrongAddress));
        }
        let second = tables::spot_of(runs, farther as u32);
        if second.kind <= layout::TRANSPORT || nearer == source {
            return Err(Refusal::For(Cause::WrongAddress));
        }
        self.exchange_at(arm, from, first, second, farther == source)
    }

    // From step 5 on: "bytes 2-3 transport", and behind it the places of a MOVE or an EXCHANGE.
    fn judge(self, carry: Carry, runs: [Range; 4]) -> Result<Carriage, Refusal>
        requires head_long { head_size ≤ length self.head.now }
        requires runs_len { length (laid runs) ≡ places self.elements.now }
        ensures value { result ≡ asked (judged_by carry (laid runs)) self.entry }
        ensures within { IfOk result (Within (places self.entry.elements.now)) }
    {
        let Some(arm) = arms::arm_of(runs, self.elements, self.host, self.address(2)) else {
            return Err(Refusal::For(Cause::WrongAddress));
        };
        match carry {
            Carry::Move => self.move_spots(runs, arm),
            Carry::Exchange => self.exchange_spots(runs, arm),
        }
    }
}

// ---- carried out. That a place is in the table is asked of each function: it is a fact of a place and a table together, which no type of either says.

// "a volume leaving a storage element takes that address; leaving any other, it keeps the source it had, none included"
#[tactic(auto, unfolding(crate::specs::Judged::shelf_at, rules::specs::Choice::when, rules::specs::Tables::places))]
fn shelf_of(elements: &[u8], address: u16, left: Spot) -> u16
    requires { left.place < places elements.now }
    ensures { result ≡ shelf_at elements.now address left }
{
    let kept = tables::element::source(elements, left.place);
    if left.kind == layout::STORAGE {
        return address;
    }
    kept
}

// The volume goes from one place to another with a source: "The place left has volume 0, source 0, mark 0".
#[tactic(auto, unfolding(crate::specs::Judged::shifted, rules::specs::Tables::places))]
fn shift(elements: &mut [u8], from: Spot, to: Spot, volume: u16, shelf: u16)
    requires place_bound { from.place < places elements.old }
    requires place_bound_2 { to.place < places elements.old }
    ensures { elements.new ≡ shifted elements.old from.place to.place volume shelf }
{
    tables::element::fill(elements, from.place, 0, 0, 0);
    tables::element::fill(elements, to.place, volume, shelf, 0);
}

// The volume's source is read before a place is written.
#[tactic(auto, unfolding(crate::specs::Judged::carried, rules::specs::Tables::places))]
fn carry_volume(elements: &mut [u8], block: &[u8; 12], from: Spot, to: Spot, volume: u16)
    requires place_bound { from.place < places elements.old }
    requires place_bound_2 { to.place < places elements.old }
    ensures { elements.new ≡ carried elements.old block.now from to volume }
{
    let shelf = shelf_of(elements, wire::word_at(block, 4), from);
    shift(elements, from, to, volume, shelf);
}

// Both volumes and their sources are read before a place is written.
#[tactic(auto, unfolding(crate::specs::Judged::swapped, rules::specs::Tables::places))]
fn swap(
    elements: &mut [u8],
    block: &[u8; 12],
    from: Spot,
    first: Spot,
    second: Spot,
    brought: u16,
    displaced: u16,
)
    requires place_bound { from.place < places elements.old }
    requires place_bound_2 { first.place < places elements.old }
    requires place_bound_3 { second.place < places elements.old }
    ensures { elements.new ≡ swapped elements.old block.now from first second brought displaced }
{
    let source = wire::word_at(block, 4);
    let nearer = wire::word_at(block, 6);
    let displaced_shelf = shelf_of(elements, nearer, first);
    let brought_shelf = shelf_of(elements, source, from);
    tables::element::fill(elements, from.place, 0, 0, 0);
    shift(elements, first, second, displaced, displaced_shelf);
    tables::element::fill(elements, first.place, brought, brought_shelf, 0);
}

// One for a shelf, none for an element of another type.
#[tactic(auto, unfolding(rules::specs::Choice::when))]
fn shelf(kind: u8) -> u16
    ensures { result ≡ shelf kind }
{
    if kind == layout::STORAGE { 1 } else { 0 }
}

// "Every move, exchange .. keeps it true": one more shelf is empty where one was left, one fewer where one was filled. Nothing is counted again.
fn recount(head: &mut [u8], left: u8, filled: u8)
    requires head_long { head_size ≤ length head.old }
    requires head_bound { panel head.old ≤ most_elements }
    requires filled_bound { shelf filled ≤ panel head.old + shelf left }
    ensures { head.new ≡ shown head.old (panel head.old + shelf left - shelf filled) }
{
    let more = tables::head::panel(head) + shelf(left);
    tables::head::show(head, more - shelf(filled));
}

// Carries out what was judged.
fn carry_out(
    head: &mut [u8],
    elements: &mut [u8],
    host: Host,
    block: &[u8; 12],
    carriage: Carriage,
) -> Reply
    requires head_long { head_size ≤ length head.old }
    requires able { Able head.old elements.old block.now carriage }
    ensures { (rest : Rest) (buffer : List ℕ) → ended result (lent head.new elements.new rest) buffer ≡ outcome (lent head.old elements.old rest) buffer (carries elements.old host.number block.now carriage) }
{
    match carriage {
        Carriage::Move { from, to, volume } => {
            carry_volume(elements, block, from, to, volume);
            recount(head, from.kind, to.kind);
        }
        Carriage::Exchange {
            from,
            first,
            second,
            brought,
            displaced,
        } => {
            swap(elements, block, from, first, second, brought, displaced);
            recount(head, from.kind, second.kind);
        }
    }
    order::good(head, host.number)
}

// MOVE MEDIUM or EXCHANGE MEDIUM from step 5 on. They have one way through, so that each function above has one caller and the compiler puts it in place: what is
// judged then stays in registers.
pub fn medium(
    carry: Carry,
    runs: [Range; 4],
    head: &mut [u8],
    elements: &mut [u8],
    generations: &[u8],
    masks: &[u8],
    host: Host,
    block: &[u8; 12],
) -> Reply
    requires head_long { head_size ≤ length head.old }
    requires ready { Ready runs head.old elements.old }
    ensures { (rest : Rest) (buffer : List ℕ) → rest.generations ≡ generations.now → rest.masks ≡ masks.now → ended result (lent head.new elements.new rest) buffer ≡ outcome (lent head.old elements.old rest) buffer (carry_verdict carry (lent head.old elements.old rest) host.number block.now) }
{
    let asked = Asked {
        head,
        elements,
        generations,
        masks,
        host: host.number,
        block,
    };
    match asked.judge(carry, runs) {
        Ok(carriage) => carry_out(head, elements, host, block, carriage),
        Err(why) => order::refused(head, host.number, why),
    }
}

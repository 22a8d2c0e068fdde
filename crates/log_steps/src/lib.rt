// A recorded command: steps 1 to 8 as for one that is sent, but "answers aren't kept", so none is made.
#![tactic(auto)]

ghost use Rattle.std.specs.Prelude.{◌≡◌, ◌≤◌, List, ℕ, length};
ghost use Rattle.rules.specs.Tables.{head_size, lent, searching, Rest};
ghost use Rattle.rules.specs.Order.{after};
ghost use Rattle.rules.specs.Sense.{request_sense};
ghost use Rattle.rules.specs.Command.{act, steps_of};
ghost use Rattle.operation.specs.Meaning.{meaning};
ghost use Rattle.tables.specs.Ranges.{meant};
ghost use Rattle.pages.specs.Pages.{stock};
ghost use Rattle.listing.specs.Counting.{Listable};
ghost use Rattle.log_steps.specs.Recorded.{Recorded, Given};

use admission::Barrier;
use layout::SEARCH_SIZE;
use moves::Carry;
use operation::Operation;
use order::Cause;
use tables::{Fixed, Host, Range};

// REQUEST SENSE: "What was told is cleared, allocation 0 included."
fn forget(head: &mut [u8], host: Host)
    requires head_long { head_size ≤ length head.old }
    ensures { (elements : List ℕ) (rest : Rest) (block : List ℕ) → lent head.new elements rest ≡ after (request_sense (lent head.old elements rest) host.number block) (lent head.old elements rest) }
{
    if sense::tells_attention(head, host.number) {
        tables::head::attend(head, host.number, 0, 0);
        return;
    }
    tables::head::wipe(head, host.number);
}

// From step 5 on: the one place that chooses the recorded command. Of a listing and of mode pages only the cleared sense is left; a search goes on.
fn command(
    op: Operation,
    runs: [Range; 4],
    head: &mut [u8],
    elements: &mut [u8],
    fixed: Fixed<'_>,
    search: &mut [u8; SEARCH_SIZE],
    host: Host,
    block: &[u8],
    parameters: &[u8],
)
    requires head_long { head_size ≤ length head.old }
    requires recorded { Recorded op runs head.old elements.old fixed search.old block.now }
    ensures { (rest : Rest) → Given rest fixed.entry → Listable (meant runs) (stock elements.old rest.tags rest.blank) → lent head.new elements.new (searching rest search.new) ≡ after (act (meaning op) (lent head.old elements.old (searching rest search.old)) host.number block.now parameters.now) (lent head.old elements.old (searching rest search.old)) }
{
    let who = host.number;
    match op {
        Operation::TestUnitReady | Operation::ReadElementStatus | Operation::ModeSense => {
            order::good(head, who);
        }
        Operation::RequestSense => forget(head, host),
        Operation::Reserve => {
            holds::reserve(runs, head, elements, who, wire::whole(block), parameters);
        }
        Operation::Release => {
            holds::release(head, elements, who, wire::whole(block));
        }
        Operation::PreventAllow => {
            holds::prevent_allow(head, host, wire::whole(block));
        }
        Operation::MoveMedium => {
            moves::medium(
                Carry::Move,
                runs,
                head,
                elements,
                fixed.generations,
                fixed.masks,
                host,
                wire::whole(block),
            );
        }
        Operation::ExchangeMedium => {
            moves::medium(
                Carry::Exchange,
                runs,
                head,
                elements,
                fixed.generations,
                fixed.masks,
                host,
                wire::whole(block),
            );
        }
        Operation::SendVolumeTag => {
            search::send_volume_tag(head, search, who, wire::whole(block), parameters);
        }
        Operation::RequestVolumeElementAddress => {
            finding::go_on(
                runs,
                head,
                elements,
                fixed.tags,
                search,
                who,
                wire::whole(block),
            );
        }
        Operation::Unknown => {
            order::refuse(head, who, Cause::InvalidOperation);
        }
    }
}

// Steps 1 to 4, then the command.
pub fn carry_out(
    op: Operation,
    runs: [Range; 4],
    head: &mut [u8],
    elements: &mut [u8],
    fixed: Fixed<'_>,
    search: &mut [u8; SEARCH_SIZE],
    host: Host,
    block: &[u8],
    parameters: &[u8],
)
    requires head_long { head_size ≤ length head.old }
    requires recorded { Recorded op runs head.old elements.old fixed search.old block.now }
    ensures { (rest : Rest) → Given rest fixed.entry → Listable (meant runs) (stock elements.old rest.tags rest.blank) → lent head.new elements.new (searching rest search.new) ≡ after (steps_of (meaning op) (lent head.old elements.old (searching rest search.old)) host.number block.now parameters.now) (lent head.old elements.old (searching rest search.old)) }
{
    match admission::judge(op, head, elements, host.number, block, parameters) {
        Err(Barrier::Pending) => {
            sense::attention::report(head, host.number);
        }
        Err(Barrier::Held) => {
            order::conflict(head, host.number);
        }
        Err(Barrier::Faulty(at)) => {
            order::refuse(head, host.number, Cause::InvalidField(at));
        }
        Ok(()) => command(
            op, runs, head, elements, fixed, search, host, block, parameters,
        ),
    }
}

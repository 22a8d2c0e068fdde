// What each command does from step 5 on, for tables that suit, as sound ones do, a block of its length and no fault in it.
#![tactic(auto)]

ghost use Rattle.std.specs.Prelude.{◌≡◌, ◌≤◌, length};
ghost use Rattle.rules.specs.Tables.{head_size, lent};
ghost use Rattle.rules.specs.Order.{outcome, fits};
ghost use Rattle.rules.specs.Form.{fault};
ghost use Rattle.rules.specs.Command.{act};
ghost use Rattle.order.specs.Ending.{ended};
ghost use Rattle.tables.specs.Lent.{rest_of};
ghost use Rattle.operation.specs.Meaning.{meaning};
ghost use Rattle.acts.specs.Suited.{Served};

use layout::SEARCH_SIZE;
use moves::Carry;
use operation::Operation;
use order::{Cause, Reply};
use tables::{Fixed, Host, Range};
use wire::whole;

// The one place that chooses the command. The tables come one by one, here and in the crates that hand them down to here: in a struct that holds them by `&mut` each of these functions
// would have to say too that the three references in it are the ones that it was given. MOVE and EXCHANGE have an arm each, since one for both would choose again.
pub fn act(
    op: Operation,
    runs: [Range; 4],
    head: &mut [u8],
    elements: &mut [u8],
    fixed: Fixed<'_>,
    search: &mut [u8; SEARCH_SIZE],
    host: Host,
    block: &[u8],
    parameters: &[u8],
    answer: &mut [u8],
) -> Reply
    requires head_long { head_size ≤ length head.old }
    requires served { Served op runs head.old elements.old fixed search.old block.now }
    requires no_fault { fault (meaning op) head.old block.now parameters.now ≡ 0 }
    ensures { ended result (lent head.new elements.new (rest_of fixed.entry search.new)) answer.new ≡ outcome (lent head.old elements.old (rest_of fixed.entry search.old)) answer.old (fits answer.old (act (meaning op) (lent head.old elements.old (rest_of fixed.entry search.old)) host.number block.now parameters.now)) }
{
    let who = host.number;
    match op {
        Operation::TestUnitReady => order::good(head, who),
        Operation::RequestSense => sense::request_sense(head, who, whole(block), answer),
        Operation::Reserve => holds::reserve(runs, head, elements, who, whole(block), parameters),
        Operation::Release => holds::release(head, elements, who, whole(block)),
        Operation::PreventAllow => holds::prevent_allow(head, host, whole(block)),
        Operation::MoveMedium => moves::medium(
            Carry::Move,
            runs,
            head,
            elements,
            fixed.generations,
            fixed.masks,
            host,
            whole(block),
        ),
        Operation::ExchangeMedium => moves::medium(
            Carry::Exchange,
            runs,
            head,
            elements,
            fixed.generations,
            fixed.masks,
            host,
            whole(block),
        ),
        Operation::ReadElementStatus => listing::read_element_status(
            runs,
            head,
            elements,
            fixed.tags,
            fixed.blank,
            who,
            whole(block),
            answer,
        ),
        Operation::ModeSense => mode::mode_sense(head, who, whole(block), answer),
        Operation::SendVolumeTag => search::send_volume_tag(
            head,
            search,
            who,
            whole(block),
            parameters,
        ),
        Operation::RequestVolumeElementAddress => finding::request_volume_element_address(
            runs,
            head,
            elements,
            fixed.tags,
            fixed.blank,
            search,
            who,
            whole(block),
            answer,
        ),
        Operation::Unknown => order::refuse(head, who, Cause::InvalidOperation),
    }
}

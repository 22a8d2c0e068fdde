// Steps 1 to 8, for tables that suit, as sound ones do, and a block of its length.
#![tactic(auto)]

ghost use Rattle.std.specs.Prelude.{◌≡◌, ◌≤◌, length};
ghost use Rattle.rules.specs.Tables.{head_size, lent};
ghost use Rattle.rules.specs.Order.{outcome, fits};
ghost use Rattle.rules.specs.Command.{steps_of};
ghost use Rattle.order.specs.Ending.{ended};
ghost use Rattle.tables.specs.Lent.{rest_of};
ghost use Rattle.operation.specs.Meaning.{meaning};
ghost use Rattle.acts.specs.Suited.{Served};

use admission::Barrier;
use layout::SEARCH_SIZE;
use operation::Operation;
use order::{Cause, Reply};
use tables::{Fixed, Host, Range};

// Steps 1 to 4, then the command.
pub fn steps(
    op: Operation,
    runs: [Range; 4],
    head: &mut [u8],
    elements: &mut [u8],
    fixed: Fixed<'_>,
    search: &mut [u8; SEARCH_SIZE],
    host: Host,
    block: &[u8],
    parameters: &[u8],
    answer: &mut [u8],
) -> Reply
    requires head_long { head_size ≤ length head.old }
    requires served { Served op runs head.old elements.old fixed search.old block.now }
    ensures { ended result (lent head.new elements.new (rest_of fixed.entry search.new)) answer.new ≡ outcome (lent head.old elements.old (rest_of fixed.entry search.old)) answer.old (fits answer.old (steps_of (meaning op) (lent head.old elements.old (rest_of fixed.entry search.old)) host.number block.now parameters.now)) }
{
    match admission::judge(op, head, elements, host.number, block, parameters) {
        Err(Barrier::Pending) => sense::attention::report(head, host.number),
        Err(Barrier::Held) => order::conflict(head, host.number),
        Err(Barrier::Faulty(at)) => order::refuse(head, host.number, Cause::InvalidField(at)),
        Ok(()) => acts::act(
            op, runs, head, elements, fixed, search, host, block, parameters, answer,
        ),
    }
}

// House numbers round the steps and the events, tables that are not sound before all else. No function here asks anything of the values that it is lent, and each
// has the contract of the exports that call it.
#![tactic(auto)]

ghost use Rattle.std.specs.Prelude.{◌≡◌, []};
ghost use Rattle.rules.specs.Tables.{lent};
ghost use Rattle.rules.specs.Command.{command};
ghost use Rattle.order.specs.Ending.{ended};
ghost use Rattle.tables.specs.Lent.{rest_of};
ghost use Rattle.serving.specs.Happened.{happened};

use events::Event;
use order::{House, Reply};
use tables::Fixed;

// Any command: house numbers 1 to 4, then the steps, with number 5 among their replies. The search of sound tables has its length.
pub fn command(
    head: &mut [u8],
    elements: &mut [u8],
    fixed: Fixed<'_>,
    search: &mut [u8],
    host: u32,
    block: &[u8],
    parameters: &[u8],
    answer: &mut [u8],
) -> Reply
    ensures { ended result (lent head.new elements.new (rest_of fixed.entry search.new)) answer.new ≡ command (lent head.old elements.old (rest_of fixed.entry search.old)) host block.now parameters.now answer.old }
{
    let Some(runs) = sound::check(head, elements, fixed, search) else {
        return order::numbered(House::UnsoundTables);
    };
    let Some(known) = numbers::host_of(host) else {
        return order::numbered(House::UnknownHost);
    };
    if !numbers::block_fits(block) {
        return order::numbered(House::BlockLength);
    }
    let op = operation::decode(block[0]);
    if !numbers::parameters_fit(op, block, parameters) {
        return order::numbered(House::ParameterLength);
    }
    steps::steps(
        op,
        runs,
        head,
        elements,
        fixed,
        search.as_mut_array().unwrap(),
        known,
        block,
        parameters,
        answer,
    )
}

// An event of the operator, or a reset: house number 1, then the event with its own numbers.
pub fn event(
    head: &mut [u8],
    elements: &mut [u8],
    fixed: Fixed<'_>,
    search: &mut [u8],
    event: Event,
) -> Reply
    ensures { ended result (lent head.new elements.new (rest_of fixed.entry search.new)) [] ≡ happened event (lent head.old elements.old (rest_of fixed.entry search.old)) }
{
    match sound::check(head, elements, fixed, search) {
        None => order::numbered(House::UnsoundTables),
        Some(runs) => events::occur(
            runs,
            head,
            elements,
            fixed.tags,
            search.as_mut_array().unwrap(),
            event,
        ),
    }
}

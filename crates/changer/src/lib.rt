// The sixteen exports of libchanger.a, which a C front end calls by include/smc.h: C has no structs of slices, so each is lent its tables one by one, and makes one call of `serving` or
// `replay`. Each states what it ends with, by the statements of crates/entries, and asks nothing of its caller: any bytes, any lengths, any numbers. What a caller owes beside (valid slices
// that do not overlap, one call at a time) stands in include/smc.h.
#![tactic(auto)]

ghost use Rattle.std.specs.Prelude.{[]};
ghost use Rattle.rules.specs.Tables.{lent, others};
ghost use Rattle.entries.specs.OnlyOne.{CommandEnds, ImportEnds, ExportEnds, ResetEnds, ReplayEnds};

use events::Event;
use order::Reply;
use replay::Replayed;
use tables::Fixed;

#[unsafe(no_mangle)]
pub extern "C" fn smc_command(
    head: &mut [u8],
    elements: &mut [u8],
    tags: &[u8],
    blank: &[u8],
    generations: &[u8],
    masks: &[u8],
    search: &mut [u8],
    host: u32,
    block: &[u8],
    parameters: &[u8],
    answer: &mut [u8],
) -> Reply
    ensures { CommandEnds (lent head.old elements.old (others tags.now blank.now generations.now masks.now search.old)) host block.now parameters.now answer.old result (lent head.new elements.new (others tags.now blank.now generations.now masks.now search.new)) answer.new }
{
    serving::command(
        head,
        elements,
        Fixed {
            tags,
            blank,
            generations,
            masks,
        },
        search,
        host,
        block,
        parameters,
        answer,
    )
}

#[unsafe(no_mangle)]
pub extern "C" fn smc_move_medium(
    head: &mut [u8],
    elements: &mut [u8],
    tags: &[u8],
    blank: &[u8],
    generations: &[u8],
    masks: &[u8],
    search: &mut [u8],
    host: u32,
    block: &[u8],
    parameters: &[u8],
    answer: &mut [u8],
) -> Reply
    ensures { CommandEnds (lent head.old elements.old (others tags.now blank.now generations.now masks.now search.old)) host block.now parameters.now answer.old result (lent head.new elements.new (others tags.now blank.now generations.now masks.now search.new)) answer.new }
{
    serving::command(
        head,
        elements,
        Fixed {
            tags,
            blank,
            generations,
            masks,
        },
        search,
        host,
        block,
        parameters,
        answer,
    )
}

#[unsafe(no_mangle)]
pub extern "C" fn smc_exchange_medium(
    head: &mut [u8],
    elements: &mut [u8],
    tags: &[u8],
    blank: &[u8],
    generations: &[u8],
    masks: &[u8],
    search: &mut [u8],
    host: u32,
    block: &[u8],
    parameters: &[u8],
    answer: &mut [u8],
) -> Reply
    ensures { CommandEnds (lent head.old elements.old (others tags.now blank.now generations.now masks.now search.old)) host block.now parameters.now answer.old result (lent head.new elements.new (others tags.now blank.now generations.now masks.now search.new)) answer.new }
{
    serving::command(
        head,
        elements,
        Fixed {
            tags,
            blank,
            generations,
            masks,
        },
        search,
        host,
        block,
        parameters,
        answer,
    )
}

#[unsafe(no_mangle)]
pub extern "C" fn smc_read_element_status(
    head: &mut [u8],
    elements: &mut [u8],
    tags: &[u8],
    blank: &[u8],
    generations: &[u8],
    masks: &[u8],
    search: &mut [u8],
    host: u32,
    block: &[u8],
    parameters: &[u8],
    answer: &mut [u8],
) -> Reply
    ensures { CommandEnds (lent head.old elements.old (others tags.now blank.now generations.now masks.now search.old)) host block.now parameters.now answer.old result (lent head.new elements.new (others tags.now blank.now generations.now masks.now search.new)) answer.new }
{
    serving::command(
        head,
        elements,
        Fixed {
            tags,
            blank,
            generations,
            masks,
        },
        search,
        host,
        block,
        parameters,
        answer,
    )
}

#[unsafe(no_mangle)]
pub extern "C" fn smc_send_volume_tag(
    head: &mut [u8],
    elements: &mut [u8],
    tags: &[u8],
    blank: &[u8],
    generations: &[u8],
    masks: &[u8],
    search: &mut [u8],
    host: u32,
    block: &[u8],
    parameters: &[u8],
    answer: &mut [u8],
) -> Reply
    ensures { CommandEnds (lent head.old elements.old (others tags.now blank.now generations.now masks.now search.old)) host block.now parameters.now answer.old result (lent head.new elements.new (others tags.now blank.now generations.now masks.now search.new)) answer.new }
{
    serving::command(
        head,
        elements,
        Fixed {
            tags,
            blank,
            generations,
            masks,
        },
        search,
        host,
        block,
        parameters,
        answer,
    )
}

#[unsafe(no_mangle)]
pub extern "C" fn smc_request_volume_element_address(
    head: &mut [u8],
    elements: &mut [u8],
    tags: &[u8],
    blank: &[u8],
    generations: &[u8],
    masks: &[u8],
    search: &mut [u8],
    host: u32,
    block: &[u8],
    parameters: &[u8],
    answer: &mut [u8],
) -> Reply
    ensures { CommandEnds (lent head.old elements.old (others tags.now blank.now generations.now masks.now search.old)) host block.now parameters.now answer.old result (lent head.new elements.new (others tags.now blank.now generations.now masks.now search.new)) answer.new }
{
    serving::command(
        head,
        elements,
        Fixed {
            tags,
            blank,
            generations,
            masks,
        },
        search,
        host,
        block,
        parameters,
        answer,
    )
}

#[unsafe(no_mangle)]
pub extern "C" fn smc_test_unit_ready(
    head: &mut [u8],
    elements: &mut [u8],
    tags: &[u8],
    blank: &[u8],
    generations: &[u8],
    masks: &[u8],
    search: &mut [u8],
    host: u32,
    block: &[u8],
    parameters: &[u8],
    answer: &mut [u8],
) -> Reply
    ensures { CommandEnds (lent head.old elements.old (others tags.now blank.now generations.now masks.now search.old)) host block.now parameters.now answer.old result (lent head.new elements.new (others tags.now blank.now generations.now masks.now search.new)) answer.new }
{
    serving::command(
        head,
        elements,
        Fixed {
            tags,
            blank,
            generations,
            masks,
        },
        search,
        host,
        block,
        parameters,
        answer,
    )
}

#[unsafe(no_mangle)]
pub extern "C" fn smc_request_sense(
    head: &mut [u8],
    elements: &mut [u8],
    tags: &[u8],
    blank: &[u8],
    generations: &[u8],
    masks: &[u8],
    search: &mut [u8],
    host: u32,
    block: &[u8],
    parameters: &[u8],
    answer: &mut [u8],
) -> Reply
    ensures { CommandEnds (lent head.old elements.old (others tags.now blank.now generations.now masks.now search.old)) host block.now parameters.now answer.old result (lent head.new elements.new (others tags.now blank.now generations.now masks.now search.new)) answer.new }
{
    serving::command(
        head,
        elements,
        Fixed {
            tags,
            blank,
            generations,
            masks,
        },
        search,
        host,
        block,
        parameters,
        answer,
    )
}

#[unsafe(no_mangle)]
pub extern "C" fn smc_reserve(
    head: &mut [u8],
    elements: &mut [u8],
    tags: &[u8],
    blank: &[u8],
    generations: &[u8],
    masks: &[u8],
    search: &mut [u8],
    host: u32,
    block: &[u8],
    parameters: &[u8],
    answer: &mut [u8],
) -> Reply
    ensures { CommandEnds (lent head.old elements.old (others tags.now blank.now generations.now masks.now search.old)) host block.now parameters.now answer.old result (lent head.new elements.new (others tags.now blank.now generations.now masks.now search.new)) answer.new }
{
    serving::command(
        head,
        elements,
        Fixed {
            tags,
            blank,
            generations,
            masks,
        },
        search,
        host,
        block,
        parameters,
        answer,
    )
}

#[unsafe(no_mangle)]
pub extern "C" fn smc_release(
    head: &mut [u8],
    elements: &mut [u8],
    tags: &[u8],
    blank: &[u8],
    generations: &[u8],
    masks: &[u8],
    search: &mut [u8],
    host: u32,
    block: &[u8],
    parameters: &[u8],
    answer: &mut [u8],
) -> Reply
    ensures { CommandEnds (lent head.old elements.old (others tags.now blank.now generations.now masks.now search.old)) host block.now parameters.now answer.old result (lent head.new elements.new (others tags.now blank.now generations.now masks.now search.new)) answer.new }
{
    serving::command(
        head,
        elements,
        Fixed {
            tags,
            blank,
            generations,
            masks,
        },
        search,
        host,
        block,
        parameters,
        answer,
    )
}

#[unsafe(no_mangle)]
pub extern "C" fn smc_prevent_allow(
    head: &mut [u8],
    elements: &mut [u8],
    tags: &[u8],
    blank: &[u8],
    generations: &[u8],
    masks: &[u8],
    search: &mut [u8],
    host: u32,
    block: &[u8],
    parameters: &[u8],
    answer: &mut [u8],
) -> Reply
    ensures { CommandEnds (lent head.old elements.old (others tags.now blank.now generations.now masks.now search.old)) host block.now parameters.now answer.old result (lent head.new elements.new (others tags.now blank.now generations.now masks.now search.new)) answer.new }
{
    serving::command(
        head,
        elements,
        Fixed {
            tags,
            blank,
            generations,
            masks,
        },
        search,
        host,
        block,
        parameters,
        answer,
    )
}

#[unsafe(no_mangle)]
pub extern "C" fn smc_mode_sense(
    head: &mut [u8],
    elements: &mut [u8],
    tags: &[u8],
    blank: &[u8],
    generations: &[u8],
    masks: &[u8],
    search: &mut [u8],
    host: u32,
    block: &[u8],
    parameters: &[u8],
    answer: &mut [u8],
) -> Reply
    ensures { CommandEnds (lent head.old elements.old (others tags.now blank.now generations.now masks.now search.old)) host block.now parameters.now answer.old result (lent head.new elements.new (others tags.now blank.now generations.now masks.now search.new)) answer.new }
{
    serving::command(
        head,
        elements,
        Fixed {
            tags,
            blank,
            generations,
            masks,
        },
        search,
        host,
        block,
        parameters,
        answer,
    )
}

#[unsafe(no_mangle)]
pub extern "C" fn smc_import(
    head: &mut [u8],
    elements: &mut [u8],
    tags: &[u8],
    blank: &[u8],
    generations: &[u8],
    masks: &[u8],
    search: &mut [u8],
    address: u32,
    volume: u32,
) -> Reply
    ensures { ImportEnds (lent head.old elements.old (others tags.now blank.now generations.now masks.now search.old)) address volume result (lent head.new elements.new (others tags.now blank.now generations.now masks.now search.new)) [] }
{
    serving::event(
        head,
        elements,
        Fixed {
            tags,
            blank,
            generations,
            masks,
        },
        search,
        Event::Import { address, volume },
    )
}

#[unsafe(no_mangle)]
pub extern "C" fn smc_export(
    head: &mut [u8],
    elements: &mut [u8],
    tags: &[u8],
    blank: &[u8],
    generations: &[u8],
    masks: &[u8],
    search: &mut [u8],
    address: u32,
) -> Reply
    ensures { ExportEnds (lent head.old elements.old (others tags.now blank.now generations.now masks.now search.old)) address result (lent head.new elements.new (others tags.now blank.now generations.now masks.now search.new)) [] }
{
    serving::event(
        head,
        elements,
        Fixed {
            tags,
            blank,
            generations,
            masks,
        },
        search,
        Event::Export { address },
    )
}

#[unsafe(no_mangle)]
pub extern "C" fn smc_reset(
    head: &mut [u8],
    elements: &mut [u8],
    tags: &[u8],
    blank: &[u8],
    generations: &[u8],
    masks: &[u8],
    search: &mut [u8],
) -> Reply
    ensures { ResetEnds (lent head.old elements.old (others tags.now blank.now generations.now masks.now search.old)) result (lent head.new elements.new (others tags.now blank.now generations.now masks.now search.new)) [] }
{
    serving::event(
        head,
        elements,
        Fixed {
            tags,
            blank,
            generations,
            masks,
        },
        search,
        Event::Reset,
    )
}

#[unsafe(no_mangle)]
pub extern "C" fn smc_replay(
    head: &mut [u8],
    elements: &mut [u8],
    tags: &[u8],
    blank: &[u8],
    generations: &[u8],
    masks: &[u8],
    search: &mut [u8],
    log: &[u8],
    expected: u32,
    budget: u32,
) -> Replayed
    ensures { ReplayEnds (lent head.old elements.old (others tags.now blank.now generations.now masks.now search.old)) log.now expected budget result (lent head.new elements.new (others tags.now blank.now generations.now masks.now search.new)) }
{
    replay::replay(
        head,
        elements,
        Fixed {
            tags,
            blank,
            generations,
            masks,
        },
        search,
        log,
        expected,
        budget,
    )
}

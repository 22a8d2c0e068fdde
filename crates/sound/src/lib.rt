// "Sound tables": the check that every entry makes first, and the runs of the element table that it hands on.
#![tactic(auto)]

mod drives;
pub mod element;
mod marks;
mod searches;

ghost use Rattle.std.specs.Prelude.{◌≡◌, true, false, length, is_some, IfSome};
ghost use Rattle.rules.specs.Choice.{when, below};
ghost use Rattle.rules.specs.Bytes.{byte};
ghost use Rattle.rules.specs.Tables.{most_generations, lent};
ghost use Rattle.rules.specs.Roster.{ranges};
ghost use Rattle.rules.specs.Sound.{within, sound, labels_sound, generations_sound, rest_sound};
ghost use Rattle.tables.specs.Ranges.{meant, Runs};
ghost use Rattle.tables.specs.Lent.{rest_of};

use element::Unit;
use tables::{Fixed, Range};

// "V at most 512; all lengths exact"
#[tactic(auto, using(sound_head::proofs::Choices::choices), unfolding(rules::specs::Sound::labels_sound))]
fn labels_sound(tags: &[u8], blank: &[u8]) -> bool
    ensures { result ≡ labels_sound tags.now blank.now }
{
    let top = tables::volumes(tags);
    top <= layout::MOST_VOLUMES
        && tags.len() == layout::TAG_SIZE * top
        && blank.len() == layout::TAG_SIZE
}

// "generation 1 to 8", in one test of both ends: 0 wraps round to 255.
#[tactic(auto, using(crate::proofs::Generations::one_test))]
fn known(generation: u8) -> bool
    ensures { result ≡ within 1 most_generations generation }
{
    generation.wrapping_sub(1) < layout::MOST_GENERATIONS
}

// Each is 1 to 8. This goes over up to 512 bytes at every call: with one test a byte, and no way out before the end, the compiler takes 16 bytes at a time.
#[tactic(auto, using(crate::proofs::Gathered::gathered), unfolding(rules::specs::Bytes::byte))]
fn all_within(generations: &[u8]) -> bool
    ensures { result ≡ below (length generations.now) (λ i. within 1 most_generations (byte generations.now i)) }
{
    let mut fine = true;
    for generation in generations {
        fine &= known(*generation);
    }
    fine
}

// "generation 1 to 8 for each volume": "Bad lengths or entries are number 1."
#[tactic(auto, using(sound_head::proofs::Choices::choices), unfolding(rules::specs::Sound::generations_sound))]
fn generations_sound(top: usize, generations: &[u8]) -> bool
    ensures { result ≡ generations_sound top generations.now }
{
    generations.len() == top && all_within(generations)
}

// The tables beside the head and the elements, as far as they do not hang on these.
#[tactic(auto, using(sound_head::proofs::Choices::choices), unfolding(rules::specs::Sound::rest_sound))]
fn rest_sound(fixed: Fixed<'_>, search: &[u8]) -> bool
    ensures { result ≡ rest_sound (rest_of fixed.entry search.now) }
{
    labels_sound(fixed.tags, fixed.blank)
        && generations_sound(tables::volumes(fixed.tags), fixed.generations)
        && searches::search_sound(search)
}

// The head of these ranges, then what does not hang on it, then the elements by the runs of the ranges, with the number that the panel shows, then the drives.
#[tactic(auto, using(sound_head::proofs::Choices::choices), unfolding(rules::specs::Sound::sound))]
fn parts_sound(
    rs: [Range; 4],
    runs: [Range; 4],
    head: &[u8; layout::HEAD_SIZE],
    elements: &[u8],
    fixed: Fixed<'_>,
    search: &[u8],
) -> bool
    requires rs_value { meant rs ≡ ranges head.now }
    requires runs { Runs runs head.now }
    ensures { result ≡ sound (lent head.now elements.now (rest_of fixed.entry search.now)) }
{
    if !sound_head::sound(rs, runs, head) {
        return false;
    }
    if !rest_sound(fixed, search) {
        return false;
    }
    let unit = Unit {
        shelves: rs[1],
        holder: tables::head::unit(head),
        top: tables::volumes(fixed.tags),
    };
    element::elements_sound(unit, runs, tables::head::panel(head), elements)
        && drives::drives_sound(rs[3], runs, elements, fixed)
}

// The check that every entry makes first: it reads any bytes of any lengths, each element once. Sound tables have runs, which callers look up by.
pub fn check(head: &[u8], elements: &[u8], fixed: Fixed<'_>, search: &[u8]) -> Option<[Range; 4]>
    ensures value { is_some result ≡ sound (lent head.now elements.now (rest_of fixed.entry search.now)) }
    ensures runs { IfSome result (λ runs. Runs runs head.now) }
{
    let head: &[u8; layout::HEAD_SIZE] = head.as_array()?;
    let rs = tables::ranges(head);
    let runs = tables::sorted(rs);
    if parts_sound(rs, runs, head, elements, fixed, search) {
        Some(runs)
    } else {
        None
    }
}

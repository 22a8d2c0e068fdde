// The drives: a mask for each, and no "ill-fitting volume".
ghost use Rattle.std.specs.Prelude.{◌≡◌, ◌+◌, ◌*◌, ◌≤◌, length};
ghost use Rattle.rules.specs.Tables.{element_size, element_at};
ghost use Rattle.rules.specs.Roster.{place_of};
ghost use Rattle.tables.specs.Ranges.{meaning, laid};
ghost use Rattle.sound.specs.Checks.{suited_at, suited_to, drives_by};

use tables::{Fixed, Range};

// The k-th drive, whose record is at a place, is empty or takes what stands in it.
#[tactic(auto, using(sound_head::proofs::Choices::choices), unfolding(crate::specs::Checks::suited_at))]
fn suits(elements: &[u8], fixed: Fixed<'_>, place: usize, k: usize) -> bool
    requires { element_at place + element_size ≤ length elements.now }
    ensures { result ≡ suited_at elements.now fixed.entry.generations.now fixed.entry.masks.now place k }
{
    let volume = tables::element::volume(elements, place);
    volume == 0 || fitting::drive_takes(fixed.generations, fixed.masks, k, volume)
}

// The first n drives, whose records lie one behind the other from a place on.
#[tactic(auto, using(crate::proofs::Suited::all_pass, crate::proofs::Suited::one_fails))]
fn all_suit(elements: &[u8], fixed: Fixed<'_>, place: usize, n: usize) -> bool
    requires { element_size * (place + n) ≤ length elements.now }
    ensures { result ≡ suited_to elements.now fixed.entry.generations.now fixed.entry.masks.now place n }
{
    for k in 0..n {
        if !suits(elements, fixed, place + k, k) {
            return false;
        }
    }
    true
}

// "for each drive a mask"; "A table that already has an ill-fitting volume in a drive is not sound."
#[tactic(auto, using(sound_head::proofs::Choices::choices), unfolding(crate::specs::Checks::drives_by, tables::specs::LookUp::spot_of))]
pub fn drives_sound(drives: Range, runs: [Range; 4], elements: &[u8], fixed: Fixed<'_>) -> bool
    requires { element_size * (place_of (laid runs) (meaning drives).first + (meaning drives).count) ≤ length elements.now }
    ensures { result ≡ drives_by (laid runs) (meaning drives) elements.now fixed.entry.generations.now fixed.entry.masks.now }
{
    let n = drives.count as usize;
    if fixed.masks.len() != n {
        return false;
    }
    let first = tables::spot_of(runs, drives.first as u32);
    all_suit(elements, fixed, first.place, n)
}

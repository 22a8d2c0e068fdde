// The elements in one pass: what stands in each, who holds it, its last byte, that no volume stands twice, and how many shelves are empty.
ghost use Rattle.std.specs.Prelude.{◌≡◌, ◌+◌, ◌-◌, ◌*◌, ◌≤◌, [], ◌∷◌, length, ◌==◌, IfSome};
ghost use Rattle.rules.specs.Choice.{when, all_of};
ghost use Rattle.rules.specs.Tables.{element_size, element_at, most_volumes, volume, source, holder, id, empty_shelves};
ghost use Rattle.rules.specs.Sound.{mark_sound, hold_sound, elements_sound};
ghost use Rattle.tables.specs.Ranges.{meaning, laid};
ghost use Rattle.sound.specs.Checks.{last_of, ending_sound, Shelved, source_in, fit_by, passes_from, empty_from, sound_to, Marks, Run};

use crate::marks::Seen;
use tables::Range;

// What every element is judged by: the storage range, the unit's holder and the last volume number.
#[derive(Clone, Copy)]
pub struct Unit {
    pub shelves: Range,
    pub holder: u8,
    pub top: usize,
    pub ghost top_bound: { top ≤ most_volumes },
}

// The element at a place whose record is there.
#[derive(Clone, Copy)]
struct Element<'a> {
    elements: &'a [u8],
    place: usize,
    ghost there: { element_at place + element_size ≤ length elements.now },
}

// "The mark is 1 only on a full import/export element, else 0."
#[tactic(auto, using(sound_head::proofs::Choices::choices), unfolding(rules::specs::Sound::mark_sound))]
fn mark_sound(kind: u8, volume: u16, mark: u8) -> bool
    ensures { result ≡ mark_sound kind volume mark }
{
    mark == 0 || (mark == 1 && kind == layout::PORT && volume != 0)
}

impl Element<'_> {
    fn volume(self) -> u16
        ensures { result ≡ volume self.entry.elements.now self.entry.place }
    {
        tables::element::volume(self.elements, self.place)
    }

    // The mark and the zero byte behind it: mostly both are 0.
    #[tactic(auto, using(sound_head::proofs::Choices::choices, crate::proofs::Fields::ending_none), unfolding(crate::specs::Checks::ending_sound))]
    fn ending_sound(self, kind: u8, volume: u16) -> bool
        ensures { result ≡ ending_sound kind volume self.entry.elements.now self.entry.place }
    {
        let at = layout::ELEMENT_SIZE * self.place + layout::MARK;
        wire::word_at(self.elements, at) == 0
            || (mark_sound(
                kind,
                volume,
                tables::element::mark(self.elements, self.place),
            ) && tables::element::zero_byte(self.elements, self.place) == 0)
    }
}

impl Unit {
    // "Sound tables now allow only a storage address or 0", "and 0 where empty": a storage address is one of the storage range.
    #[tactic(auto, using(sound_head::proofs::Choices::choices), unfolding(crate::specs::Checks::source_in))]
    fn source_sound(self, volume: u16, source: u16) -> bool
        ensures { result ≡ source_in (meaning self.shelves) volume source }
    {
        source == 0 || (volume != 0 && tables::lies_in(self.shelves, source as u32))
    }

    // "Each volume number is at most V"; "Transports are empty.": the last number that may stand in an element of a type.
    #[tactic(auto, using(sound_head::proofs::Choices::choices), unfolding(crate::specs::Checks::last_of))]
    fn last_of(self, kind: u8) -> usize
        ensures { result ≡ last_of self.top kind }
    {
        if kind == layout::TRANSPORT {
            0
        } else {
            self.top
        }
    }

    // "Holder .. at most 8; id is 0 where there is no holder; if the unit is held, no other host holds an element."
    #[tactic(auto, using(sound_head::proofs::Choices::choices), unfolding(rules::specs::Sound::hold_sound))]
    fn hold_sound(self, holder: u8, id: u8) -> bool
        ensures { result ≡ hold_sound self.holder holder id }
    {
        if holder == 0 {
            return id == 0;
        }
        holder <= layout::HOSTS && (self.holder == 0 || holder == self.holder)
    }

    // Who holds an element: mostly nobody, without an id.
    #[tactic(auto, using(crate::proofs::Fields::held_none))]
    fn held_sound(self, element: Element<'_>) -> bool
        ensures { result ≡ hold_sound self.holder (holder element.entry.elements.now element.entry.place) (id element.entry.elements.now element.entry.place) }
    {
        let at = layout::ELEMENT_SIZE * element.place + layout::HOLDER;
        wire::word_at(element.elements, at) == 0
            || self.hold_sound(
                tables::element::holder(element.elements, element.place),
                tables::element::id(element.elements, element.place),
            )
    }

    // The element by itself, as one of a type whose last volume number is this.
    #[tactic(auto, using(sound_head::proofs::Choices::choices), unfolding(crate::specs::Checks::fit_by))]
    fn fits(self, kind: u8, last: usize, element: Element<'_>) -> bool
        ensures { result ≡ fit_by self.holder last (meaning self.shelves) element.entry.elements.now kind element.entry.place }
    {
        let volume = element.volume();
        let source = tables::element::source(element.elements, element.place);
        (volume as usize) <= last
            && self.source_sound(volume, source)
            && element.ending_sound(kind, volume)
            && self.held_sound(element)
    }
}

// The places of a run: each by itself, and "0 aside, stands at most once", with a mark for each volume number seen. How many are empty, if all are sound.
fn run_sound(
    unit: Unit,
    kind: u8,
    first: usize,
    end: usize,
    elements: &[u8],
    seen: &mut Seen,
) -> Option<usize>
    requires { Run elements.now first end seen.old.words }
    ensures value { result ≡ when (passes_from unit.holder (last_of unit.top kind) (meaning unit.shelves) elements.now kind first (end - first)) (Some (empty_from elements.now first (end - first))) None }
    ensures marks { IfSome result (λ _. Marks elements.now end seen.new.words) }
{
    let last = unit.last_of(kind);
    let mut empty: usize = 0;
    for place in first..end {
        let element = Element { elements, place };
        if !unit.fits(kind, last, element) {
            return None;
        }
        let number = element.volume() as usize;
        if number == 0 {
            empty += 1;
        } else if !seen.insert(number) {
            return None;
        }
    }
    Some(empty)
}

// Every place, one run after the other, each once. How many shelves are empty, if all are sound.
fn places_sound(unit: Unit, runs: [Range; 4], elements: &[u8]) -> Option<usize>
    requires elements_len { length elements.now ≡ element_size * length (laid runs) }
    requires shelved { Shelved (laid runs) (meaning unit.shelves) }
    ensures { result ≡ when (sound_to unit.holder unit.top (laid runs) elements.now (length (laid runs))) (Some (empty_shelves (laid runs) elements.now)) None }
{
    let mut seen = Seen::new();
    let mut empty_shelves: usize = 0;
    let mut first: usize = 0;
    for r in runs {
        let end = first + (r.count as usize);
        let empty = run_sound(unit, r.kind, first, end, elements, &mut seen)?;
        if r.kind == layout::STORAGE {
            empty_shelves += empty;
        }
        first = end;
    }
    Some(empty_shelves)
}

// The elements of the runs, with the number that the panel shows.
#[tactic(auto, using(crate::proofs::Pass::told_by))]
pub fn elements_sound(unit: Unit, runs: [Range; 4], panel: u16, elements: &[u8]) -> bool
    requires { Shelved (laid runs) (meaning unit.shelves) }
    ensures { result ≡ all_of (elements_sound (laid runs) unit.holder unit.top elements.now ∷ (panel == empty_shelves (laid runs) elements.now) ∷ []) }
{
    if elements.len() != layout::ELEMENT_SIZE * tables::total(runs) {
        return false;
    }
    places_sound(unit, runs, elements) == Some(panel as usize)
}

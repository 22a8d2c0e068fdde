// Elements freed: a host's of one id, all of a host's, everyone's.
#![tactic(auto)]

ghost use Rattle.std.specs.Prelude.{◌≡◌, ◌+◌, ◌≤◌, length};
ghost use Rattle.rules.specs.Tables.{element_size, element_at, theirs, freed_at, freed};
ghost use Rattle.frees.specs.Freed.{whose};

// Whose elements are freed: a host is a number here, as in the table, since nothing is asked of it.
#[derive(Clone, Copy)]
pub enum Whose {
    Under(u8, u8),
    Every(u8),
    Anyone,
}

#[tactic(auto, unfolding(rules::specs::Tables::theirs, rules::specs::Choice::all_of, rules::specs::Choice::when))]
fn theirs(w: Whose, owner: u8, id: u8) -> bool
    ensures { result ≡ theirs (whose w) owner id }
{
    match w {
        Whose::Under(host, number) => owner == host && id == number,
        Whose::Every(host) => owner == host,
        Whose::Anyone => true,
    }
}

// The element at a place is freed, if it is theirs.
#[tactic(auto, unfolding(rules::specs::Tables::freed_at, rules::specs::Choice::when))]
pub fn free_at(elements: &mut [u8], w: Whose, place: usize)
    requires { element_at place + element_size ≤ length elements.old }
    ensures { elements.new ≡ freed_at (whose w) place elements.old }
{
    let owner = tables::element::holder(elements, place);
    let id = tables::element::id(elements, place);
    if theirs(w, owner, id) {
        tables::element::hold(elements, place, 0, 0);
    }
}

// Their elements are freed.
pub fn free(elements: &mut [u8], w: Whose)
    ensures { elements.new ≡ freed (whose w) elements.old }
{
    for p in 0..tables::element::places(elements) {
        free_at(elements, w, p);
    }
}

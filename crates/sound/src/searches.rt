// The search: "All zeros means no search".
ghost use Rattle.std.specs.Prelude.{◌≡◌, ◌==◌};
ghost use Rattle.rules.specs.Choice.{below};
ghost use Rattle.rules.specs.Bytes.{byte};
ghost use Rattle.rules.specs.Tables.{search_size};
ghost use Rattle.rules.specs.Search.{known_action};
ghost use Rattle.rules.specs.Sound.{search_sound};
ghost use Rattle.sound.specs.Checks.{fields_sound};

use layout::SEARCH_SIZE;

// "actions 1h and 5h (primary tags)"
#[tactic(auto, using(sound_head::proofs::Choices::choices), unfolding(rules::specs::Search::known_action))]
fn known(action: u8) -> bool
    ensures { result ≡ known_action action }
{
    action == layout::IN_RANGE || action == layout::ANY_SEQUENCE
}

// The fields of a search whose action is known: "only .. a field's value that no search could leave, is number 1"
#[tactic(auto, using(sound_head::proofs::Choices::choices), unfolding(crate::specs::Checks::fields_sound, rules::specs::Tables::search_type, rules::specs::Tables::next_address, rules::specs::Bytes::byte))]
fn fields_sound(search: &[u8; SEARCH_SIZE]) -> bool
    ensures { result ≡ fields_sound search.now }
{
    search[layout::SEARCH_TYPE] <= layout::DRIVE
        && wire::triple_at(search, layout::NEXT) <= layout::BEHIND_LAST
}

// Every byte is 0, many at a time: see `all_within`.
#[tactic(auto, using(crate::proofs::Gathered::gathered), unfolding(rules::specs::Bytes::byte))]
fn all_zero(search: &[u8; SEARCH_SIZE]) -> bool
    ensures { result ≡ below search_size (λ i. byte search.now i == 0) }
{
    let mut fine = true;
    for b in search {
        fine &= *b == 0;
    }
    fine
}

// A search is judged by its fields; what has no action that a search has must be none at all.
#[tactic(auto, using(crate::proofs::Searching::searching), unfolding(rules::specs::Tables::action, rules::specs::Bytes::byte))]
pub fn search_sound(search: &[u8]) -> bool
    ensures { result ≡ search_sound search.now }
{
    let Some(search) = search.as_array::<SEARCH_SIZE>() else {
        return false;
    };
    if known(search[layout::ACTION]) {
        fields_sound(search)
    } else {
        all_zero(search)
    }
}

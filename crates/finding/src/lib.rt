// REQUEST VOLUME ELEMENT ADDRESS: the listing of what the search finds, which then goes on behind the last element told.
#![tactic(auto)]

ghost use Rattle.std.specs.Prelude.{◌≡◌, ◌≤◌, length};
ghost use Rattle.rules.specs.Bytes.{word};
ghost use Rattle.rules.specs.Tables.{head_size, hosts, Rest, lent, searching, action, next_address};
ghost use Rattle.rules.specs.Order.{outcome, fits, after};
ghost use Rattle.rules.specs.Search.{request_address};
ghost use Rattle.tables.specs.Ranges.{meant};
ghost use Rattle.order.specs.Ending.{ended, Lends};
ghost use Rattle.pages.specs.Pages.{stock};
ghost use Rattle.listing.specs.Counting.{Listable, asked};
ghost use Rattle.finding.specs.Findable.{Findable, Countable};

use listing::{Limits, Query};
use order::{Reply, Status};
use pages::Stock;
use tables::Range;

// What a block asks of a search, with the action that the header tells.
#[tactic(auto, unfolding(rules::specs::Tables::action, rules::specs::Bytes::byte))]
fn query_of(search: &[u8; layout::SEARCH_SIZE], block: &[u8; 12]) -> Query
    ensures { result ≡ asked block.now (action search.now) }
{
    listing::query_of(block, search[layout::ACTION])
}

// How far the listing goes, from where the search stands.
#[tactic(auto, unfolding(rules::specs::Tables::next_address))]
fn limits_of(search: &[u8; layout::SEARCH_SIZE], block: &[u8; 12]) -> Limits
    ensures { result ≡ record { most = word block.now 4; room = word block.now 7; from = next_address search.now } }
{
    Limits {
        most: wire::word_at(block, 4),
        room: wire::word_at(block, 7) as usize,
        from: wire::triple_at(search, layout::NEXT) as usize,
    }
}

// From step 5 on. What is found is marked and listed; an answer that is too short tells nothing.
pub fn request_volume_element_address(
    runs: [Range; 4],
    head: &mut [u8],
    elements: &[u8],
    tags: &[u8],
    blank: &[u8],
    search: &mut [u8; layout::SEARCH_SIZE],
    host: u8,
    block: &[u8; 12],
    answer: &mut [u8],
) -> Reply
    requires head_long { head_size ≤ length head.old }
    requires host_known { host ≤ hosts }
    requires findable { Findable runs head.old (stock elements.now tags.now blank.now) search.old }
    ensures { (rest : Rest) → Lends rest tags.now blank.now → ended result (lent head.new elements.now (searching rest search.new)) answer.new ≡ outcome (lent head.old elements.now (searching rest search.old)) answer.old (fits answer.old (request_address (lent head.old elements.now (searching rest search.old)) host block.now)) }
{
    let mut marks = [0u8; layout::MOST_ELEMENTS];
    search::mark_found(&mut marks, runs, elements, tags, search);
    let q = query_of(search, block);
    let limits = limits_of(search, block);
    let stock = Stock {
        elements,
        tags,
        blank,
        marks: &marks,
    };
    let told = listing::list(answer, stock, q, limits, runs);
    match told.count {
        Ok(count) => {
            search::put_next(search, told.next);
            tables::head::wipe(head, host);
            order::told(Status::Good, count)
        }
        Err(why) => order::numbered(why),
    }
}

// The same without an answer: what would be told is counted.
pub fn go_on(
    runs: [Range; 4],
    head: &mut [u8],
    elements: &[u8],
    tags: &[u8],
    search: &mut [u8; layout::SEARCH_SIZE],
    host: u8,
    block: &[u8; 12],
)
    requires head_long { head_size ≤ length head.old }
    requires host_known { host ≤ hosts }
    requires countable { Countable runs head.old elements.now tags.now search.old }
    ensures { (rest : Rest) → rest.tags ≡ tags.now → Listable (meant runs) (stock elements.now rest.tags rest.blank) → lent head.new elements.now (searching rest search.new) ≡ after (request_address (lent head.old elements.now (searching rest search.old)) host block.now) (lent head.old elements.now (searching rest search.old)) }
{
    let mut marks = [0u8; layout::MOST_ELEMENTS];
    search::mark_found(&mut marks, runs, elements, tags, search);
    let q = query_of(search, block);
    let limits = limits_of(search, block);
    let next = listing::passed(&marks, q, limits, runs);
    search::put_next(search, next);
    tables::head::wipe(head, host);
}

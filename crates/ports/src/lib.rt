// Import and export judged by reading only, for sound tables: house numbers 6 to 9.
#![tactic(auto)]

ghost use Rattle.std.specs.Prelude.{◌≡◌, ◌≤◌, true, List, ℕ, length};
ghost use Rattle.rules.specs.Tables.{head_size, places, mask, lent, Rest};
ghost use Rattle.rules.specs.Sound.{sound};
ghost use Rattle.rules.specs.Events.{present as presentIn, wrong_volume, importing, exporting};
ghost use Rattle.tables.specs.Ranges.{laid};
ghost use Rattle.tables.specs.LookUp.{found};
ghost use Rattle.tables.specs.declared.Types.TheVariants.{Port};
ghost use Rattle.ports.specs.Judged.{prevented_by, port_by, meaning, Within, Ported, Importable};

use order::House;
use tables::{Range, Types};

// The element to fill, with which volume (0 empties it) and which mark.
#[derive(Clone, Copy, PartialEq, Eq)]
pub struct Fill {
    pub place: usize,
    pub volume: u16,
    pub mark: u8,
}

// "how many hosts prevent removal and the lowest such host"
fn prevented(mask: u8) -> House
    requires { mask ≡ 0 → ⊥ }
    ensures { result ≡ prevented_by mask }
{
    House::Prevented {
        preventers: tables::mask::preventers(mask),
        lowest: tables::mask::lowest(mask),
    }
}

// The place of an import/export element that no host keeps shut: numbers 6 and 7.
fn open_port(runs: [Range; 4], head: &[u8], address: u32) -> Result<usize, House>
    requires head_long { head_size ≤ length head.now }
    ensures { result ≡ port_by (found Port (laid runs) address) (mask head.now) }
{
    let Some(place) = tables::find(runs, address, Types::Port) else {
        return Err(House::UnknownPort);
    };
    let mask = tables::head::mask(head);
    if mask != 0 {
        return Err(prevented(mask));
    }
    Ok(place)
}

// "already in the library"
fn present(elements: &[u8], volume: u32) -> bool
    ensures { result ≡ presentIn elements.now volume }
{
    for place in 0..tables::element::places(elements) {
        if tables::element::volume(elements, place) as u32 == volume {
            return true;
        }
    }
    false
}

// "volume number 0, above V, or already in the library"
fn wrong_volume(elements: &[u8], tags: &[u8], volume: u32) -> bool
    ensures { (head : List ℕ) (rest : Rest) → rest.tags ≡ tags.now → result ≡ wrong_volume (lent head elements.now rest) volume }
{
    if volume == 0 {
        return true;
    }
    if tables::volumes(tags) < volume as usize {
        return true;
    }
    present(elements, volume)
}

// Import, judged by reading only: numbers 6 to 9 in this order.
pub fn judge_import(
    runs: [Range; 4],
    head: &[u8],
    elements: &[u8],
    tags: &[u8],
    address: u32,
    volume: u32,
) -> Result<Fill, House>
    requires head_long { head_size ≤ length head.now }
    requires importable { Importable runs head.now elements.now tags.now }
    ensures result_value { (rest : Rest) → rest.tags ≡ tags.now → sound (lent head.now elements.now rest) ≡ true → meaning result ≡ importing (lent head.now elements.now rest) address volume }
    ensures within { Within (places elements.now) result }
{
    let to = open_port(runs, head, address)?;
    if tables::element::volume(elements, to) != 0 {
        return Err(House::PortContent);
    }
    if wrong_volume(elements, tags, volume) {
        return Err(House::WrongVolume);
    }
    Ok(Fill {
        place: to,
        volume: volume as u16,
        mark: 1,
    })
}

// Export, judged by reading only: numbers 6 to 8 in this order.
pub fn judge_export(
    runs: [Range; 4],
    head: &[u8],
    elements: &[u8],
    address: u32,
) -> Result<Fill, House>
    requires head_long { head_size ≤ length head.now }
    requires ported { Ported runs head.now elements.now }
    ensures result_value { (rest : Rest) → sound (lent head.now elements.now rest) ≡ true → meaning result ≡ exporting (lent head.now elements.now rest) address }
    ensures within { Within (places elements.now) result }
{
    let from = open_port(runs, head, address)?;
    if tables::element::volume(elements, from) == 0 {
        return Err(House::PortContent);
    }
    Ok(Fill {
        place: from,
        volume: 0,
        mark: 0,
    })
}

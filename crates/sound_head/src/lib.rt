// "Sound tables", the head: its ranges, the unit's holder, and each host's record.
#![tactic(auto)]

ghost use Rattle.std.specs.Prelude.{◌≡◌, true};
ghost use Rattle.rules.specs.Roster.{ranges, sorted};
ghost use Rattle.rules.specs.Sound.{within, range_sound, ranges_sound, sense_sound, attention_sound, head_sound};
ghost use Rattle.tables.specs.Ranges.{meaning, meant, Runs};
ghost use Rattle.sound_head.specs.Counts.{counts_fit};
ghost use Rattle.sound_head.specs.InLine.{each_sound, before, in_line};
ghost use Rattle.sound_head.specs.Hosts.{QuietHost, host_sound, hosts_sound};

use layout::HEAD_SIZE;
use tables::{Host, Range};

// low to high, both ends included
#[tactic(auto, using(crate::proofs::Choices::choices), unfolding(rules::specs::Sound::within))]
fn within(low: usize, high: usize, n: usize) -> bool
    ensures { result ≡ within low high n }
{
    low <= n && n <= high
}

// "1 to 512 elements; 1 to 127 transports; at least one storage or import/export element"
#[tactic(auto, using(crate::proofs::Ranges::by_ranges), unfolding(rules::specs::Sound::counts_sound))]
fn counts_sound(rs: [Range; 4]) -> bool
    ensures { result ≡ counts_fit (meant rs) }
{
    let transports = rs[0].count as usize;
    let storages = rs[1].count as usize;
    let ports = rs[2].count as usize;
    let drives = rs[3].count as usize;
    within(
        1,
        layout::MOST_ELEMENTS,
        transports + storages + ports + drives,
    ) && within(1, layout::MOST_TRANSPORTS, transports)
        && storages + ports >= 1
}

// "each range within 1 to 65,535 ..; a count of 0 has first address 0"
#[tactic(auto, using(crate::proofs::Choices::choices), unfolding(rules::specs::Sound::range_sound))]
fn range_sound(r: Range) -> bool
    ensures { result ≡ range_sound (meaning r) }
{
    if r.count == 0 {
        return r.first == 0;
    }
    let behind = (r.first as u32) + (r.count as u32);
    r.first >= 1 && behind <= layout::BEHIND_LAST
}

// Every index of a range is a plain number, here and below: the ranges then stay in registers.
#[tactic(auto, using(crate::proofs::Ranges::by_ranges))]
fn each_sound(rs: [Range; 4]) -> bool
    ensures { result ≡ each_sound (meant rs) }
{
    range_sound(rs[0]) && range_sound(rs[1]) && range_sound(rs[2]) && range_sound(rs[3])
}

// One range ends before another begins.
#[tactic(auto, using(crate::proofs::Choices::choices), unfolding(crate::specs::InLine::before))]
fn before(r: Range, s: Range) -> bool
    ensures { result ≡ before (meaning r) (meaning s) }
{
    (r.first as u32) + (r.count as u32) <= (s.first as u32)
}

// "with no overlap": of ranges by first address only neighbours can overlap.
#[tactic(auto, using(crate::proofs::Ranges::by_ranges))]
fn in_line(runs: [Range; 4]) -> bool
    ensures { result ≡ in_line (meant runs) }
{
    before(runs[0], runs[1]) && before(runs[1], runs[2]) && before(runs[2], runs[3])
}

// The ranges, and the same by first address.
#[tactic(auto, using(crate::proofs::Ranges::by_ranges))]
fn ranges_sound(rs: [Range; 4], runs: [Range; 4]) -> bool
    requires { meant runs ≡ sorted (meant rs) }
    ensures { result ≡ ranges_sound (meant rs) }
{
    each_sound(rs) && in_line(runs)
}

// "Sense key at most 15, and key 0 has codes 0."
#[tactic(auto, using(crate::proofs::Choices::choices), unfolding(rules::specs::Sound::sense_sound))]
fn sense_sound(key: u8, asc: u8, ascq: u8) -> bool
    ensures { result ≡ sense_sound key asc ascq }
{
    key <= 15 && (key != 0 || (asc == 0 && ascq == 0))
}

// "Attention is none, 28h/01h or 29h/00h."
#[tactic(auto, using(crate::proofs::Choices::choices), unfolding(rules::specs::Sound::attention_sound))]
fn attention_sound(asc: u8, ascq: u8) -> bool
    ensures { result ≡ attention_sound asc ascq }
{
    matches!((asc, ascq), (0, 0) | (0x28, 0x01) | (0x29, 0x00))
}

// A host has neither sense nor attention: its bytes, the first four of them as one number, are zeros.
fn host_quiet(head: &[u8; HEAD_SIZE], host: Host) -> bool
    ensures { result ≡ true → QuietHost head.now host.number }
{
    let at = layout::host_at(host.number);
    let high = wire::word_at(head, at) as u32;
    let low = wire::word_at(head, at + 2) as u32;
    high * 65536 + low == 0 && tables::head::attentionq(head, host.number) == 0
}

// A host's sense and attention: mostly it has neither.
#[tactic(auto, using(crate::proofs::Choices::choices), unfolding(crate::specs::Hosts::host_sound))]
fn host_sound(head: &[u8; HEAD_SIZE], host: Host) -> bool
    ensures { result ≡ host_sound head.now host.number }
{
    host_quiet(head, host)
        || (sense_sound(
            tables::head::key(head, host.number),
            tables::head::asc(head, host.number),
            tables::head::ascq(head, host.number),
        ) && attention_sound(
            tables::head::attention(head, host.number),
            tables::head::attentionq(head, host.number),
        ))
}

// Each host's sense and attention.
#[tactic(auto, using(crate::proofs::Hosts::all_pass, crate::proofs::Hosts::one_fails))]
fn hosts_sound(head: &[u8; HEAD_SIZE]) -> bool
    ensures { result ≡ hosts_sound head.now }
{
    for number in 1..=layout::HOSTS {
        if !host_sound(head, Host { number }) {
            return false;
        }
    }
    true
}

// The head by itself, which has these ranges, and the same by first address.
#[tactic(auto, using(crate::proofs::Ranges::by_ranges), unfolding(rules::specs::Sound::head_sound))]
pub fn sound(rs: [Range; 4], runs: [Range; 4], head: &[u8; HEAD_SIZE]) -> bool
    requires rs_value { meant rs ≡ ranges head.now }
    requires runs { Runs runs head.now }
    ensures { result ≡ head_sound head.now }
{
    counts_sound(rs)
        && ranges_sound(rs, runs)
        && tables::head::unit(head) <= layout::HOSTS
        && hosts_sound(head)
}

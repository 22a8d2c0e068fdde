// House numbers 2 to 4.
#![tactic(auto)]

ghost use Rattle.std.specs.Prelude.{◌≡◌, true, false, MatchOption, length};
ghost use Rattle.rules.specs.Tables.{hosts};
ghost use Rattle.rules.specs.Sound.{within};
ghost use Rattle.rules.specs.Command.{group_fits, block_fits, wanted};
ghost use Rattle.operation.specs.Meaning.{meaning, Fitting};

use operation::Operation;
use tables::Host;

// "host not 1 to 8"
#[tactic(auto, using(crate::proofs::Hosts::hosts_by))]
pub fn host_of(number: u32) -> Option<Host>
    ensures { MatchOption result (within 1 hosts number ≡ false) (λ host. (within 1 hosts number ≡ true) × (host.number ≡ number)) }
{
    if number < 1 {
        return None;
    }
    if number > layout::HOSTS as u32 {
        return None;
    }
    Some(Host {
        number: number as u8,
    })
}

// "Length by the top three bits of the first byte"
#[tactic(auto, using(rules::proofs::Ladder::ladder, rules::proofs::Rungs::rungs), unfolding(rules::specs::Command::group_fits))]
fn group_fits(group: u8, n: usize) -> bool
    ensures { result ≡ group_fits group n }
{
    match group {
        0 => n == 6,
        1 | 2 => n == 10,
        4 => n == 16,
        5 => n == 12,
        _ => true,
    }
}

// "command block empty or of wrong length"
#[tactic(auto, using(rules::proofs::Ladder::ladder), unfolding(rules::specs::Command::block_fits, rules::specs::Bytes::byte))]
pub fn block_fits(block: &[u8]) -> bool
    ensures { result ≡ block_fits block.now }
{
    match block.first() {
        Some(first) => group_fits(first / 32, block.len()),
        None => false,
    }
}

// "for RESERVE not as many as bytes 3-4 say; for any other known command not none"; "Number 4 reads B6h's own list length" That the block has the length of its operation (`Fitting`) is a fact of both together.
#[tactic(auto, unfolding(rules::specs::Command::wanted, operation::specs::Meaning::meaning))]
pub fn parameters_fit(op: Operation, block: &[u8], parameters: &[u8]) -> bool
    requires { Fitting op block.now }
    ensures { result ≡ wanted (meaning op) block.now (length parameters.now) }
{
    let n = parameters.len();
    match op {
        Operation::TestUnitReady => n == 0,
        Operation::RequestSense => n == 0,
        Operation::Reserve => n == wire::word_at(block, 3) as usize,
        Operation::Release => n == 0,
        Operation::PreventAllow => n == 0,
        Operation::MoveMedium => n == 0,
        Operation::ExchangeMedium => n == 0,
        Operation::ReadElementStatus => n == 0,
        Operation::ModeSense => n == 0,
        Operation::SendVolumeTag => n == wire::word_at(block, 8) as usize,
        Operation::RequestVolumeElementAddress => n == 0,
        Operation::Unknown => true,
    }
}

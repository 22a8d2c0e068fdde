// Step 4, for all commands: where the block is at fault.
#![tactic(auto)]

ghost use Rattle.std.specs.Prelude.{◌≡◌, List, ℕ, ◌+◌, ◌≤◌, length};
ghost use Rattle.rules.specs.Tables.{head_size};
ghost use Rattle.rules.specs.Operation.{Reserve, ModeSense};
ghost use Rattle.rules.specs.Form.{unused, stray as strayIn, type_fault, action_fault, own_fault, lower as lowerOf, fault as faultOf};
ghost use Rattle.operation.specs.Meaning.{meaning, Fitting};
ghost use Rattle.form.specs.Faults.{byte_at};

use operation::Operation;

// ---- the bits without a use of each byte, from byte 1 on

const TEST_UNIT_READY_UNUSED: [u8; 5] = [0x1F, 0xFF, 0xFF, 0xFF, 0xFF];

// "byte 4 allocation"
const REQUEST_SENSE_UNUSED: [u8; 5] = [0x1F, 0xFF, 0xFF, 0x00, 0xFF];

// "byte 1 bit 0 Element, bits 1-4 third party, byte 2 id"; bytes 3-4 list length
const RESERVE_UNUSED: [u8; 5] = [0x1E, 0x00, 0x00, 0x00, 0xFF];

// "bytes 1 and 2 as RESERVE"
const RELEASE_UNUSED: [u8; 5] = [0x1E, 0x00, 0xFF, 0xFF, 0xFF];

// "byte 4 bit 0"
const PREVENT_ALLOW_UNUSED: [u8; 5] = [0x1F, 0xFF, 0xFF, 0xFE, 0xFF];

// "bytes 2-3 transport, 4-5 source, 6-7 destination, bit 0 of byte 10 invert"
const MOVE_MEDIUM_UNUSED: [u8; 11] = [0x1F, 0, 0, 0, 0, 0, 0, 0xFF, 0xFF, 0xFF, 0xFF];

// "4-5 source, 6-7 first destination, 8-9 second; byte 10 bits 0 and 1 invert"
const EXCHANGE_MEDIUM_UNUSED: [u8; 11] = [0x1F, 0, 0, 0, 0, 0, 0, 0, 0, 0xFF, 0xFF];

// "byte 1 bit 4 tags, bits 0-3 type .., 2-3 start, 4-5 most elements, 7-9 allocation"
const READ_ELEMENT_STATUS_UNUSED: [u8; 11] = [0, 0, 0, 0, 0, 0xFF, 0, 0, 0, 0xFF, 0xFF];

// byte 1 bit 3 "DBD is ignored", byte 2 page control and page code, byte 4 allocation
const MODE_SENSE_UNUSED: [u8; 5] = [0x17, 0x00, 0xFF, 0x00, 0xFF];

// byte 1 bits 0-3 type, 2-3 start, byte 5 bits 0-4 action, 8-9 list length
const SEND_VOLUME_TAG_UNUSED: [u8; 11] = [0x10, 0, 0, 0xFF, 0xE0, 0xFF, 0xFF, 0, 0, 0xFF, 0xFF];

// byte 1 bit 4 tags, bits 0-3 type, 2-3 start, 4-5 most elements, 7-8 allocation
const REQUEST_ADDRESS_UNUSED: [u8; 11] = [0, 0, 0, 0, 0, 0xFF, 0, 0, 0xFF, 0xFF, 0xFF];

// The lowest byte that has a bit without a use.
fn stray(block: &[u8], masks: &[u8]) -> Option<usize>
    requires { length masks.now + 1 ≤ length block.now }
    ensures { result ≡ byte_at (strayIn masks.now block.now) }
{
    for (i, mask) in masks.iter().enumerate() {
        if block[i + 1] & mask != 0 {
            return Some(i + 1);
        }
    }
    None
}

// The lowest byte of an operation's block that has a bit without a use. Each arm names its masks itself, so that the compiler tests those bytes alone that have such bits, and goes
// through no list.
#[tactic(auto, unfolding(operation::specs::Meaning::meaning, rules::specs::Form::unused, rules::specs::Form::stray, rules::specs::Form::stray_from))]
fn unused(op: Operation, block: &[u8]) -> Option<usize>
    requires { Fitting op block.now }
    ensures { result ≡ byte_at (strayIn (unused (meaning op)) block.now) }
{
    match op {
        Operation::TestUnitReady => stray(block, &TEST_UNIT_READY_UNUSED),
        Operation::RequestSense => stray(block, &REQUEST_SENSE_UNUSED),
        Operation::Reserve => stray(block, &RESERVE_UNUSED),
        Operation::Release => stray(block, &RELEASE_UNUSED),
        Operation::PreventAllow => stray(block, &PREVENT_ALLOW_UNUSED),
        Operation::MoveMedium => stray(block, &MOVE_MEDIUM_UNUSED),
        Operation::ExchangeMedium => stray(block, &EXCHANGE_MEDIUM_UNUSED),
        Operation::ReadElementStatus => stray(block, &READ_ELEMENT_STATUS_UNUSED),
        Operation::ModeSense => stray(block, &MODE_SENSE_UNUSED),
        Operation::SendVolumeTag => stray(block, &SEND_VOLUME_TAG_UNUSED),
        Operation::RequestVolumeElementAddress => stray(block, &REQUEST_ADDRESS_UNUSED),
        Operation::Unknown => None,
    }
}

// RESERVE with Element 0: "list length must be 0 (else 5/24/00)"
fn list_fault(block: &[u8; 6], list: &[u8]) -> Option<usize>
    ensures { (head : List ℕ) → result ≡ byte_at (own_fault Reserve head block.now list.now) }
{
    if block[1] % 2 == 0 {
        if list.len() != 0 {
            return Some(3);
        }
    }
    None
}

// "a type code above 4"
#[tactic(auto, using(rules::proofs::Ladder::ladder), unfolding(rules::specs::Form::type_fault, rules::specs::Listing::type_code, rules::specs::Bytes::byte))]
fn type_fault(block: &[u8; 12]) -> Option<usize>
    ensures { result ≡ byte_at (type_fault block.now) }
{
    if layout::DRIVE < block[1] % 16 {
        return Some(1);
    }
    None
}

// "actions 1h and 5h (primary tags), others 5/24/00"
#[tactic(auto, using(rules::proofs::Ladder::ladder), unfolding(rules::specs::Form::action_fault, rules::specs::Search::known_action, rules::specs::Search::action_code, rules::specs::Bytes::byte))]
fn action_fault(block: &[u8; 12]) -> Option<usize>
    ensures { result ≡ byte_at (action_fault block.now) }
{
    match block[5] % 32 {
        layout::IN_RANGE | layout::ANY_SEQUENCE => None,
        _ => Some(5),
    }
}

// "other page controls and pages", and too long an answer
fn page_fault(head: &[u8], block: &[u8; 6]) -> Option<usize>
    requires head_long { head_size ≤ length head.now }
    ensures { (list : List ℕ) → result ≡ byte_at (own_fault ModeSense head.now block.now list) }
{
    if mode::no_answer(head, block) {
        return Some(2);
    }
    None
}

// The lower of two bytes at fault.
fn lower(i: Option<usize>, j: Option<usize>) -> Option<usize>
    ensures { (m n : ℕ) → i ≡ byte_at m → j ≡ byte_at n → result ≡ byte_at (lowerOf m n) }
{
    match (i, j) {
        (None, _) => j,
        (_, None) => i,
        (Some(i), Some(j)) => Some(i.min(j)),
    }
}

// A fault of the command's own; SEND VOLUME TAG may be at fault in both.
#[tactic(auto, unfolding(rules::specs::Form::own_fault, operation::specs::Meaning::meaning, rules::specs::Choice::when))]
fn own_fault(op: Operation, head: &[u8], block: &[u8], list: &[u8]) -> Option<usize>
    requires head_long { head_size ≤ length head.now }
    requires fitting { Fitting op block.now }
    ensures { result ≡ byte_at (own_fault (meaning op) head.now block.now list.now) }
{
    match op {
        Operation::Reserve => list_fault(wire::whole::<6>(block), list),
        Operation::ReadElementStatus | Operation::RequestVolumeElementAddress => {
            type_fault(wire::whole::<12>(block))
        }
        Operation::ModeSense => page_fault(head, wire::whole::<6>(block)),
        Operation::SendVolumeTag => {
            let whole = wire::whole::<12>(block);
            lower(type_fault(whole), action_fault(whole))
        }
        Operation::TestUnitReady
        | Operation::RequestSense
        | Operation::Release
        | Operation::PreventAllow
        | Operation::MoveMedium
        | Operation::ExchangeMedium
        | Operation::Unknown => None,
    }
}

// Where step 4 finds a fault: the lowest byte. That the block has the length of its operation (`Fitting`) is a fact of both together.
pub fn fault(op: Operation, head: &[u8], block: &[u8], list: &[u8]) -> Option<usize>
    requires head_long { head_size ≤ length head.now }
    requires fitting { Fitting op block.now }
    ensures { result ≡ byte_at (faultOf (meaning op) head.now block.now list.now) }
{
    lower(unused(op, block), own_fault(op, head, block, list))
}

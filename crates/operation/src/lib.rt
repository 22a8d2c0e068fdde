// The operation of a command: the first byte is decoded here and nowhere else.
#![tactic(auto)]

ghost use Rattle.std.specs.Prelude.{◌≡◌};
ghost use Rattle.rules.specs.Operation.{decoded};
ghost use Rattle.operation.specs.Meaning.{meaning};

// "Eight commands", MODE SENSE, the two of the search, and any "Other first byte".
#[derive(Clone, Copy, PartialEq, Eq)]
pub enum Operation {
    TestUnitReady,
    RequestSense,
    Reserve,
    Release,
    PreventAllow,
    MoveMedium,
    ExchangeMedium,
    ReadElementStatus,
    ModeSense,
    SendVolumeTag,
    RequestVolumeElementAddress,
    Unknown,
}

// ---- the first bytes

const TEST_UNIT_READY: u8 = 0x00;

const REQUEST_SENSE: u8 = 0x03;

const RESERVE: u8 = 0x16;

const RELEASE: u8 = 0x17;

const PREVENT_ALLOW: u8 = 0x1E;

const MOVE_MEDIUM: u8 = 0xA5;

const EXCHANGE_MEDIUM: u8 = 0xA6;

const READ_ELEMENT_STATUS: u8 = 0xB8;

const MODE_SENSE: u8 = 0x1A;

const SEND_VOLUME_TAG: u8 = 0xB6;

const REQUEST_VOLUME_ELEMENT_ADDRESS: u8 = 0xB5;

// The operation of a first byte.
#[tactic(auto, using(rules::proofs::Ladder::ladder), unfolding(rules::specs::Operation::decoded, crate::specs::Meaning::meaning))]
pub fn decode(first: u8) -> Operation
    ensures { meaning result ≡ decoded first }
{
    match first {
        TEST_UNIT_READY => Operation::TestUnitReady,
        REQUEST_SENSE => Operation::RequestSense,
        RESERVE => Operation::Reserve,
        RELEASE => Operation::Release,
        PREVENT_ALLOW => Operation::PreventAllow,
        MOVE_MEDIUM => Operation::MoveMedium,
        EXCHANGE_MEDIUM => Operation::ExchangeMedium,
        READ_ELEMENT_STATUS => Operation::ReadElementStatus,
        MODE_SENSE => Operation::ModeSense,
        SEND_VOLUME_TAG => Operation::SendVolumeTag,
        REQUEST_VOLUME_ELEMENT_ADDRESS => Operation::RequestVolumeElementAddress,
        _ => Operation::Unknown,
    }
}

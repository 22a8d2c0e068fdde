// What every command shares: the reply, the three statuses, the house numbers, the causes of a refusal, and what other hosts hold.
#![tactic(auto)]

ghost use Rattle.std.specs.Prelude.{◌≡◌, ◌≤◌, List, [], ℕ, length};
ghost use Rattle.rules.specs.Tables.{head_size, hosts, lent, Rest};
ghost use Rattle.rules.specs.Order.{outcome, refused, other as otherThan, good as goodVerdict, check as checkVerdict, conflict as conflictVerdict};
ghost use Rattle.order.specs.Ending.{ended, code, bare, numbered as numberedOf, told as told_of, reason, verdict};
ghost use Rattle.order.specs.declared.Refusal.TheVariants.{For};
ghost use Rattle.order.specs.Holders.{any_other};

// "GOOD is 00h, CHECK CONDITION 02h, RESERVATION CONFLICT 18h."
#[derive(Clone, Copy, PartialEq, Eq)]
pub enum Status {
    Good,
    CheckCondition,
    ReservationConflict,
}

impl Status {
    pub fn code(self) -> u8
        ensures { result ≡ code self }
    {
        match self {
            Status::Good => 0x00,
            Status::CheckCondition => 0x02,
            Status::ReservationConflict => 0x18,
        }
    }
}

// The house numbers, from 1 on: why a call ends with no status. Number 7 comes with how many hosts prevent removal and the lowest of them.
#[derive(Clone, Copy, PartialEq, Eq)]
pub enum House {
    UnsoundTables,
    UnknownHost,
    BlockLength,
    ParameterLength,
    ShortBuffer,
    UnknownPort,
    Prevented { preventers: u8, lowest: u8 },
    PortContent,
    WrongVolume,
}

// The sense key of a refusal.
const ILLEGAL_REQUEST: u8 = 5;

// Why a command is refused with key 5; a field of the block that is at fault, with its byte.
#[derive(Clone, Copy, PartialEq, Eq)]
pub enum Cause {
    InvalidOperation,
    InvalidField(usize),
    ListLength,
    ListField,
    WrongAddress,
    SourceEmpty,
    DestinationFull,
    IncompatibleMedium,
}

// What a call hands back beside the tables and the answer buffer.
#[repr(C)]
#[derive(Clone, Copy)]
pub struct Reply {
    pub number: u8,
    pub status: u8,
    pub preventers: u8,
    pub lowest: u8,
    pub count: u32,
}

// Why a command is not carried out: refused with key 5 for a cause, or a reservation conflict.
#[derive(Clone, Copy, PartialEq, Eq)]
pub enum Refusal {
    For(Cause),
    Conflict,
}

impl From<Cause> for Refusal {
    ghost from_gives = { λ cause r. r ≡ For cause };

    fn from(cause: Cause) -> Refusal {
        Refusal::For(cause)
    }
}

// The reply of a number that comes with no others.
pub fn bare(number: u8) -> Reply
    ensures { result ≡ bare number }
{
    Reply {
        number,
        status: 0,
        preventers: 0,
        lowest: 0,
        count: 0,
    }
}

// Refused by a house number.
#[tactic(auto, unfolding(crate::specs::Ending::numbered))]
pub fn numbered(why: House) -> Reply
    ensures { result ≡ numberedOf why }
{
    match why {
        House::UnsoundTables => bare(1),
        House::UnknownHost => bare(2),
        House::BlockLength => bare(3),
        House::ParameterLength => bare(4),
        House::ShortBuffer => bare(5),
        House::UnknownPort => bare(6),
        House::Prevented { preventers, lowest } => Reply {
            number: 7,
            status: 0,
            preventers,
            lowest,
            count: 0,
        },
        House::PortContent => bare(8),
        House::WrongVolume => bare(9),
    }
}

// House number 0, with a status and a count of bytes returned.
pub fn told(status: Status, count: u32) -> Reply
    ensures { result ≡ told_of (code status) count }
{
    Reply {
        number: 0,
        status: status.code(),
        preventers: 0,
        lowest: 0,
        count,
    }
}

// Held, and not by this host.
pub fn other(host: u8, owner: u8) -> bool
    ensures { result ≡ otherThan host owner }
{
    owner != 0 && owner != host
}

// Whether another host holds any element.
pub fn any_other(elements: &[u8], host: u8) -> bool
    ensures { result ≡ any_other elements.now host }
{
    for place in 0..tables::element::places(elements) {
        if other(host, tables::element::holder(elements, place)) {
            return true;
        }
    }
    false
}

// "first clears its host's sense": GOOD, with nothing else changed.
pub fn good(head: &mut [u8], host: u8) -> Reply
    requires head_long { head_size ≤ length head.old }
    requires host_known { host ≤ hosts }
    ensures { (elements : List ℕ) (rest : Rest) (buffer : List ℕ) → ended result (lent head.new elements rest) buffer ≡ outcome (lent head.old elements rest) buffer (goodVerdict host []) }
{
    tables::head::wipe(head, host);
    told(Status::Good, 0)
}

// CHECK CONDITION with key 5: "then stores the new one"
fn check(head: &mut [u8], host: u8, asc: u8, ascq: u8) -> Reply
    requires head_long { head_size ≤ length head.old }
    requires host_known { host ≤ hosts }
    ensures { (elements : List ℕ) (rest : Rest) (buffer : List ℕ) → ended result (lent head.new elements rest) buffer ≡ outcome (lent head.old elements rest) buffer (checkVerdict host 5 asc ascq) }
{
    tables::head::note(head, host, ILLEGAL_REQUEST, asc, ascq);
    told(Status::CheckCondition, 0)
}

// Refused with key 5 and the cause's ASC and ASCQ.
pub fn refuse(head: &mut [u8], host: u8, cause: Cause) -> Reply
    requires head_long { head_size ≤ length head.old }
    requires host_known { host ≤ hosts }
    ensures { (elements : List ℕ) (rest : Rest) (buffer : List ℕ) → ended result (lent head.new elements rest) buffer ≡ outcome (lent head.old elements rest) buffer (refused host (reason cause)) }
{
    match cause {
        Cause::InvalidOperation => check(head, host, 0x20, 0x00),
        Cause::InvalidField(_) => check(head, host, 0x24, 0x00),
        Cause::ListLength => check(head, host, 0x1A, 0x00),
        Cause::ListField => check(head, host, 0x26, 0x00),
        Cause::WrongAddress => check(head, host, 0x21, 0x01),
        Cause::SourceEmpty => check(head, host, 0x3B, 0x0E),
        Cause::DestinationFull => check(head, host, 0x3B, 0x0D),
        Cause::IncompatibleMedium => check(head, host, 0x30, 0x12),
    }
}

// RESERVATION CONFLICT: the sense is cleared, none is stored.
pub fn conflict(head: &mut [u8], host: u8) -> Reply
    requires head_long { head_size ≤ length head.old }
    requires host_known { host ≤ hosts }
    ensures { (elements : List ℕ) (rest : Rest) (buffer : List ℕ) → ended result (lent head.new elements rest) buffer ≡ outcome (lent head.old elements rest) buffer (conflictVerdict host) }
{
    tables::head::wipe(head, host);
    told(Status::ReservationConflict, 0)
}

// Not carried out, for either reason.
#[tactic(auto, unfolding(crate::specs::Ending::verdict))]
pub fn refused(head: &mut [u8], host: u8, why: Refusal) -> Reply
    requires head_long { head_size ≤ length head.old }
    requires host_known { host ≤ hosts }
    ensures { (elements : List ℕ) (rest : Rest) (buffer : List ℕ) → ended result (lent head.new elements rest) buffer ≡ outcome (lent head.old elements rest) buffer (verdict host why) }
{
    match why {
        Refusal::For(cause) => refuse(head, host, cause),
        Refusal::Conflict => conflict(head, host),
    }
}

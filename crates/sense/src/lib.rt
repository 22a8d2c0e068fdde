// What a host is told: REQUEST SENSE, from step 5 on.
#![tactic(auto)]

pub mod attention;

ghost use Rattle.std.specs.Prelude.{◌≡◌, List, ℕ, ◌≤◌, Ok, length};
ghost use Rattle.rules.specs.Bytes.{put, cut};
ghost use Rattle.rules.specs.Tables.{head_size, hosts, lent, Rest};
ghost use Rattle.rules.specs.Order.{outcome, fits};
ghost use Rattle.rules.specs.Sense.{told, tells_attention, request_sense};
ghost use Rattle.order.specs.Ending.{ended};
ghost use Rattle.sense.specs.Judged.{whole, attention_codes, sense_codes, meaning, sense_by, Within};

use order::{House, Reply, Status};

// "Returns the first min(allocation, 18) bytes"
const WHOLE: usize = 18;

// The sense key of attention.
const UNIT_ATTENTION: u8 = 6;

// What REQUEST SENSE tells: so many bytes of the attention or of the sense stored.
#[derive(Clone, Copy, PartialEq, Eq)]
pub enum Telling {
    Attention(usize),
    Sense(usize),
}

// A sense key with its ASC and ASCQ.
#[derive(Clone, Copy, PartialEq, Eq)]
struct Codes {
    key: u8,
    asc: u8,
    ascq: u8,
}

// Those of a host's attention, and of the sense stored.
fn attention_of(head: &[u8], host: u8) -> Codes
    requires head_long { head_size ≤ length head.now }
    requires host_known { host ≤ hosts }
    ensures { result ≡ attention_codes head.now host }
{
    Codes {
        key: UNIT_ATTENTION,
        asc: tables::head::attention(head, host),
        ascq: tables::head::attentionq(head, host),
    }
}

fn sense_of(head: &[u8], host: u8) -> Codes
    requires head_long { head_size ≤ length head.now }
    requires host_known { host ≤ hosts }
    ensures { result ≡ sense_codes head.now host }
{
    Codes {
        key: tables::head::key(head, host),
        asc: tables::head::asc(head, host),
        ascq: tables::head::ascq(head, host),
    }
}

// "If no sense is stored but attention is, that"
pub fn tells_attention(head: &[u8], host: u8) -> bool
    requires head_long { head_size ≤ length head.now }
    requires host_known { host ≤ hosts }
    ensures { result ≡ tells_attention head.now host }
{
    if tables::head::key(head, host) != 0 {
        return false;
    }
    tables::head::attention(head, host) != 0
}

// Judged by reading only: the answer buffer has room for so many bytes.
fn judge(head: &[u8], host: u8, block: &[u8; 6], room: usize) -> Result<Telling, House>
    requires head_long { head_size ≤ length head.now }
    requires host_known { host ≤ hosts }
    ensures value { result ≡ sense_by head.now host block.now room }
    ensures within { Within room result }
{
    let count = (block[4] as usize).min(WHOLE);
    if room < count {
        return Err(House::ShortBuffer);
    }
    if tells_attention(head, host) {
        return Ok(Telling::Attention(count));
    }
    Ok(Telling::Sense(count))
}

// "70h, 0, key, four 0, 0Ah, four 0, ASC, ASCQ, four 0": the first so many bytes. That so many fit is asked of each that writes: a fact of the count and the buffer together.
fn tell(answer: &mut [u8], count: usize, codes: Codes)
    requires count_le_whole { count ≤ whole }
    requires count_in_bounds { count ≤ length answer.old }
    ensures { answer.new ≡ put answer.old 0 (cut count (told codes.key codes.asc codes.ascq)) }
{
    let mut bytes = [0u8; WHOLE];
    bytes[0] = 0x70;
    bytes[2] = codes.key;
    bytes[7] = 0x0A;
    bytes[12] = codes.asc;
    bytes[13] = codes.ascq;
    wire::copy(answer, &bytes[..count]);
}

// The attention is told, with key 6, and cleared.
fn tell_attention(head: &mut [u8], host: u8, answer: &mut [u8], count: usize) -> Reply
    requires head_long { head_size ≤ length head.old }
    requires host_known { host ≤ hosts }
    requires count_le_whole { count ≤ whole }
    requires count_in_bounds { count ≤ length answer.old }
    ensures { (elements : List ℕ) (rest : Rest) → ended result (lent head.new elements rest) answer.new ≡ outcome (lent head.old elements rest) answer.old (meaning head.old host (Ok (Telling.Attention count))) }
{
    let codes = attention_of(head, host);
    tell(answer, count, codes);
    tables::head::attend(head, host, 0, 0);
    order::told(Status::Good, count as u32)
}

// The sense is told and cleared: in one with the attention each of the three lines would need the choice again.
fn tell_sense(head: &mut [u8], host: u8, answer: &mut [u8], count: usize) -> Reply
    requires head_long { head_size ≤ length head.old }
    requires host_known { host ≤ hosts }
    requires count_le_whole { count ≤ whole }
    requires count_in_bounds { count ≤ length answer.old }
    ensures { (elements : List ℕ) (rest : Rest) → ended result (lent head.new elements rest) answer.new ≡ outcome (lent head.old elements rest) answer.old (meaning head.old host (Ok (Telling.Sense count))) }
{
    tell(answer, count, sense_of(head, host));
    tables::head::wipe(head, host);
    order::told(Status::Good, count as u32)
}

// REQUEST SENSE: the bytes are counted before one is written, and house number 5 leaves all as it was.
pub fn request_sense(head: &mut [u8], host: u8, block: &[u8; 6], answer: &mut [u8]) -> Reply
    requires head_long { head_size ≤ length head.old }
    requires host_known { host ≤ hosts }
    ensures { (elements : List ℕ) (rest : Rest) → ended result (lent head.new elements rest) answer.new ≡ outcome (lent head.old elements rest) answer.old (fits answer.old (request_sense (lent head.old elements rest) host block.now)) }
{
    match judge(head, host, block, answer.len()) {
        Ok(Telling::Attention(count)) => tell_attention(head, host, answer, count),
        Ok(Telling::Sense(count)) => tell_sense(head, host, answer, count),
        Err(why) => order::numbered(why),
    }
}

// The layout of the lent tables: every size, offset and limit of the code. The rules have the same numbers in `Tables` and `Sound`; docs/LAYOUT.md shows them.
#![tactic(auto)]

ghost use Rattle.std.specs.Prelude.{◌≡◌};
ghost use Rattle.rules.specs.Tables.{host_at, attention_at};

// ---- the head

pub const HEAD_SIZE: usize = PANEL + 2;

// "Four ranges of 4 bytes, each first address and count"
pub const RANGES: usize = 4;

pub const RANGE_SIZE: usize = 4;

pub const RANGE_COUNT: usize = 2;

// "Byte 16: unit holder"; "Byte 17: prevent mask"
pub const UNIT: usize = 16;

pub const MASK: usize = 17;

// "Then for each host 5 bytes: sense key, ASC, ASCQ .., attention ASC, ASCQ"
pub const HOSTS: u8 = 8;

pub const HOST_RECORDS: usize = 18;

pub const HOST_RECORD: usize = 5;

pub const ATTENTION: usize = 3;

// "how many storage elements are empty .. in the head as two further bytes"
pub const PANEL: usize = HOST_RECORDS + HOST_RECORD * (HOSTS as usize);

// ---- an element

pub const ELEMENT_SIZE: usize = 8;

pub const SOURCE: usize = 2;

pub const HOLDER: usize = 4;

pub const ID: usize = 5;

pub const MARK: usize = 6;

pub const ZERO: usize = 7;

// ---- the labels

pub const TAG_SIZE: usize = 36;

// ---- the search: "template, type, range and next address", and the action

pub const SEARCH_SIZE: usize = NEXT + 3;

pub const TEMPLATE_SIZE: usize = 32;

pub const SEARCH_TYPE: usize = TEMPLATE_SIZE;

pub const ACTION: usize = SEARCH_TYPE + 1;

// the least and the greatest sequence number, in two bytes each
pub const LEAST: usize = ACTION + 1;

pub const GREATEST: usize = LEAST + 2;

// in three bytes: behind FFFFh it is 10000h
pub const NEXT: usize = GREATEST + 2;

// "actions 1h and 5h (primary tags)"; 5h: "ignore sequence numbers"
pub const IN_RANGE: u8 = 1;

pub const ANY_SEQUENCE: u8 = 5;

// ---- the type codes

pub const TRANSPORT: u8 = 1;

pub const STORAGE: u8 = 2;

pub const PORT: u8 = 3;

pub const DRIVE: u8 = 4;

// ---- the limits of sound tables

pub const MOST_ELEMENTS: usize = 512;

pub const MOST_TRANSPORTS: usize = 127;

pub const MOST_VOLUMES: usize = 512;

// "generation 1 to 8"
pub const MOST_GENERATIONS: u8 = 8;

// the address behind the last that a range may have
pub const BEHIND_LAST: u32 = 65536;

// ---- RESERVE's list: "1 to 32 descriptors of 6 bytes"

pub const DESCRIPTOR_SIZE: usize = 6;

pub const MOST_DESCRIPTORS: usize = 32;

// ---- SEND VOLUME TAG's list: template (32), reserved (2), least sequence number (2), reserved (2), greatest (2)

pub const TAG_LIST_SIZE: usize = 40;

// Where a host's record begins.
pub fn host_at(host: u8) -> usize
    ensures { result ≡ host_at host }
{
    (HOST_RECORDS - HOST_RECORD) + HOST_RECORD * (host as usize)
}

// Where its attention stands.
pub fn attention_at(host: u8) -> usize
    ensures { result ≡ attention_at host }
{
    ATTENTION + host_at(host)
}

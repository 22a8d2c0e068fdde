// The fields of the head, and the writes. Each asks for the length and the host's number, and takes no `Host` and no array that would say them: the case program lends
// heads of any length that has room, and hosts by the number of its line.
ghost use Rattle.std.specs.Prelude.{◌≡◌, ◌+◌, ◌≤◌, length};
ghost use Rattle.rules.specs.Tables.{head_size, hosts, unit, mask, key, asc, ascq, attention, attentionq, panel, unit_held, masked, sensed, attended, shown};

// "Byte 16: unit holder"
pub fn unit(head: &[u8]) -> u8
    requires { head_size ≤ length head.now }
    ensures { result ≡ unit head.now }
{
    head[layout::UNIT]
}

// "Byte 17: prevent mask"
pub fn mask(head: &[u8]) -> u8
    requires { head_size ≤ length head.now }
    ensures { result ≡ mask head.now }
{
    head[layout::MASK]
}

// "sense key, ASC, ASCQ (zeros: none)"
pub fn key(head: &[u8], host: u8) -> u8
    requires head_size_in_bounds { head_size ≤ length head.now }
    requires host_le_hosts { host ≤ hosts }
    ensures { result ≡ key head.now host }
{
    head[layout::host_at(host)]
}

pub fn asc(head: &[u8], host: u8) -> u8
    requires head_size_in_bounds { head_size ≤ length head.now }
    requires host_le_hosts { host ≤ hosts }
    ensures { result ≡ asc head.now host }
{
    head[1 + layout::host_at(host)]
}

pub fn ascq(head: &[u8], host: u8) -> u8
    requires head_size_in_bounds { head_size ≤ length head.now }
    requires host_le_hosts { host ≤ hosts }
    ensures { result ≡ ascq head.now host }
{
    head[2 + layout::host_at(host)]
}

// "attention ASC, ASCQ (zeros: none)"
pub fn attention(head: &[u8], host: u8) -> u8
    requires head_size_in_bounds { head_size ≤ length head.now }
    requires host_le_hosts { host ≤ hosts }
    ensures { result ≡ attention head.now host }
{
    head[layout::attention_at(host)]
}

pub fn attentionq(head: &[u8], host: u8) -> u8
    requires head_size_in_bounds { head_size ≤ length head.now }
    requires host_le_hosts { host ≤ hosts }
    ensures { result ≡ attentionq head.now host }
{
    head[1 + layout::attention_at(host)]
}

// The number that the panel shows: "how many storage elements are empty".
pub fn panel(head: &[u8]) -> u16
    requires { head_size ≤ length head.now }
    ensures { result ≡ panel head.now }
{
    wire::word_at(head, layout::PANEL)
}

// The unit's holder.
pub fn hold_unit(head: &mut [u8], host: u8)
    requires { head_size ≤ length head.old }
    ensures { head.new ≡ unit_held head.old host }
{
    head[layout::UNIT] = host;
}

// The prevent mask.
pub fn set_mask(head: &mut [u8], mask: u8)
    requires { head_size ≤ length head.old }
    ensures { head.new ≡ masked head.old mask }
{
    head[layout::MASK] = mask;
}

// The host's sense, in its record where it stands.
pub fn note(head: &mut [u8], host: u8, key: u8, asc: u8, ascq: u8)
    requires head_size_in_bounds { head_size ≤ length head.old }
    requires host_le_hosts { host ≤ hosts }
    ensures { head.new ≡ sensed head.old host key asc ascq }
{
    record::note(head, layout::host_at(host), key, asc, ascq);
}

// The host has no sense.
pub fn wipe(head: &mut [u8], host: u8)
    requires head_size_in_bounds { head_size ≤ length head.old }
    requires host_le_hosts { host ≤ hosts }
    ensures { head.new ≡ sensed head.old host 0 0 0 }
{
    record::wipe(head, layout::host_at(host));
}

// The host's attention; zeros clear it.
pub fn attend(head: &mut [u8], host: u8, asc: u8, ascq: u8)
    requires head_size_in_bounds { head_size ≤ length head.old }
    requires host_le_hosts { host ≤ hosts }
    ensures { head.new ≡ attended head.old host asc ascq }
{
    wire::put(head, layout::attention_at(host), [asc, ascq]);
}

// The number that the panel shows.
pub fn show(head: &mut [u8], n: u16)
    requires { head_size ≤ length head.old }
    ensures { head.new ≡ shown head.old n }
{
    wire::put_word(head, layout::PANEL, n);
}

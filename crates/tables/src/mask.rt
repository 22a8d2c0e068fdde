// The prevent mask: "bit h-1 for host h".
ghost use Rattle.std.specs.Prelude.{◌≡◌, ◌+◌, ◌<◌, ◌≤◌, ◌≢◌};
ghost use Rattle.rules.specs.Tables.{hosts, host_bit, allowing, preventing};
ghost use Rattle.rules.specs.Events.{preventers, lowest};

// "how many hosts prevent removal": the ones of the mask.
pub fn preventers(mask: u8) -> u8
    ensures { result ≡ preventers mask }
{
    u8::count_ones(mask) as u8
}

// "the lowest such host": the trailing zeros plus one.
pub fn lowest(mask: u8) -> u8
    requires { mask ≢ 0 }
    ensures { result ≡ lowest mask }
{
    u8::trailing_zeros(mask) as u8 + 1
}

fn host_bit(host: u8) -> u8
    requires { (1 ≤ host) × (host ≤ hosts) }
    ensures { result ≡ host_bit host }
{
    1 << (host - 1)
}

// The mask with the host's bit cleared.
pub fn allowing(mask: u8, host: u8) -> u8
    requires { (1 ≤ host) × (host ≤ hosts) }
    ensures { result ≡ allowing mask host }
{
    let bit = host_bit(host);
    if mask / bit % 2 == 1 {
        return mask - bit;
    }
    mask
}

// The mask with the host's bit set.
pub fn preventing(mask: u8, host: u8) -> u8
    requires { (1 ≤ host) × (host ≤ hosts) }
    ensures { result ≡ preventing mask host }
{
    let bit = host_bit(host);
    if mask / bit % 2 == 1 {
        return mask;
    }
    mask + bit
}

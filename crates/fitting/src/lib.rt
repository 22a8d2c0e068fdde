// "Wrong cartridge, wrong drive": whether a drive takes a volume, by the generations and the masks as they are lent. Every function here takes any tables and
// any numbers: a byte behind the end of a table reads as 0.
#![tactic(auto)]

ghost use Rattle.std.specs.Prelude.{◌≡◌, ◌-◌};
ghost use Rattle.rules.specs.Bytes.{byte};
ghost use Rattle.rules.specs.Fitting.{accepts};

// The byte of a table, 0 behind its end.
pub fn byte_or_none(xs: &[u8], i: usize) -> u8
    ensures { result ≡ byte xs.now i }
{
    xs.get(i).copied().unwrap_or(0)
}

// "a mask (bit g-1) of those it takes"
pub fn takes(mask: u8, generation: u8) -> bool
    ensures { result ≡ accepts mask generation }
{
    generation <= layout::MOST_GENERATIONS && (mask >> generation.saturating_sub(1)) % 2 == 1
}

// The drive whose mask is the `drive`-th, from 0, takes a volume, the first being volume 1.
pub fn drive_takes(generations: &[u8], masks: &[u8], drive: usize, volume: u16) -> bool
    ensures { result ≡ accepts (byte masks.now drive) (byte generations.now (volume - 1)) }
{
    let mask = byte_or_none(masks, drive);
    let generation = byte_or_none(generations, (volume as usize).saturating_sub(1));
    takes(mask, generation)
}

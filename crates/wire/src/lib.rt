// Numbers of two and three bytes in slices, high byte first, runs of bytes, and slices of a known length as arrays.
#![tactic(auto)]

ghost use Rattle.std.specs.Prelude.{◌≡◌, [], ◌∷◌, ◌+◌, ◌*◌, ◌-◌, ◌≤◌, ◌<◌, min, length};
ghost use Rattle.rules.specs.Bytes.{word, triple, three, put, high, low};

// Two bytes as one number: a parameter of type u8 brings its own bound, which an element of a slice does not.
pub fn join(high: u8, low: u8) -> u16
    ensures { result ≡ high * 256 + low }
{
    u16::from_be_bytes([high, low])
}

// A byte and the two below it as one number.
fn extend(top: u8, rest: u16) -> u32
    ensures { result ≡ top * 65536 + rest }
{
    (top as u32) * 65536 + (rest as u32)
}

// The number in the two bytes from i on.
pub fn word_at(xs: &[u8], i: usize) -> u16
    requires { i + 2 ≤ length xs.now }
    ensures { result ≡ word xs.now i }
{
    join(xs[i], xs[i + 1])
}

// The number in the three bytes from i on.
pub fn triple_at(xs: &[u8], i: usize) -> u32
    requires { i + 3 ≤ length xs.now }
    ensures { result ≡ triple xs.now i }
{
    extend(xs[i], word_at(xs, i + 1))
}

// The bytes from i on.
pub fn put<const N: usize>(xs: &mut [u8], i: usize, bytes: [u8; N])
    requires { i + N ≤ length xs.old }
    ensures { xs.new ≡ put xs.old i bytes.entry }
{
    xs[i..i + N].copy_from_slice(&bytes);
}

// The number v in the two bytes from i on.
pub fn put_word(xs: &mut [u8], i: usize, v: u16)
    requires { i + 2 ≤ length xs.old }
    ensures { xs.new ≡ put xs.old i (high v ∷ low v ∷ []) }
{
    put(xs, i, v.to_be_bytes());
}

// The number v, which three bytes hold, in the three bytes from i on.
pub fn put_triple(xs: &mut [u8], i: usize, v: u32)
    requires i_in_bounds { i + 3 ≤ length xs.old }
    requires v_bound { v < 16777216 }
    ensures { xs.new ≡ put xs.old i (three v) }
{
    put(
        xs,
        i,
        [(v / 65536) as u8, (v / 256 % 256) as u8, (v % 256) as u8],
    );
}

// All of src to the front of dst.
pub fn copy(dst: &mut [u8], src: &[u8])
    requires { length src.now ≤ length dst.old }
    ensures { dst.new ≡ put dst.old 0 src.now }
{
    dst[..src.len()].copy_from_slice(src);
}

// A slice of a known length as an array.
pub fn whole<const N: usize>(xs: &[u8]) -> &[u8; N]
    requires { length xs.now ≡ N }
    ensures { result.now ≡ xs.now }
{
    xs.as_array().unwrap()
}

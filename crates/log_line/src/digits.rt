// The digits of a line, looked up by their bytes.

ghost use Rattle.std.specs.Prelude.{◌≡◌};
ghost use Rattle.rules.specs.Log.{digit as digit_of};
ghost use Rattle.log_line.specs.Table.{Tabled};

// More than any digit.
const NONE: u8 = 16;

// The values of all bytes as digits, one behind the other: made once, and lent to every line.
#[derive(Drop)]
pub struct DigitTable {
    pub values: [u8; 256],
    pub ghost tabled: { Tabled values },
}

// The value of a digit, "in upper-case hexadecimal".
#[tactic(auto, using(rules::proofs::Ladder::ladder), unfolding(rules::specs::Log::digit))]
fn digit(b: u8) -> u8
    ensures { result ≡ digit_of b }
{
    match b {
        b'0'..=b'9' => b - b'0',
        b'A'..=b'F' => b - b'A' + 10,
        _ => NONE,
    }
}

// The table, byte by byte; what stands in it, its type says.
pub fn tabulate() -> DigitTable {
    let mut values = [0u8; 256];
    for (b, value) in values.iter_mut().enumerate() {
        *value = digit(b as u8);
    }
    DigitTable { values }
}

impl DigitTable {
    // The value of a digit, looked up.
    pub(crate) fn value_of(&self, b: u8) -> u8
        ensures { result ≡ digit_of b }
    {
        self.values[b as usize]
    }
}

// Numbers: "decimal, or hexadecimal with an `h` behind them, as the paper writes them".
ghost use Rattle.std.specs.Prelude.{◌≡◌, ◌<◌, IfSome};
ghost use Rattle.case_text.specs.Numbers.{digit_of, longer_by, value_of, number_of, pair_of};

use crate::fault::Fault;

// The value of a hexadecimal digit.
#[tactic(auto, unfolding(crate::specs::Numbers::digit_of, rules::specs::Choice::when))]
pub fn digit(b: u8) -> Option<u8>
    ensures value { result ≡ digit_of b }
    ensures upper_bound { IfSome result (λ d. d < 16) }
{
    match b {
        b'0'..=b'9' => Some(b - b'0'),
        b'A'..=b'F' => Some(b - b'A' + 10),
        b'a'..=b'f' => Some(b - b'a' + 10),
        _ => None,
    }
}

// The byte that two hexadecimal digits write.
pub fn pair(high: u8, low: u8) -> Option<u8>
    ensures { result ≡ pair_of (digit_of high) (digit_of low) }
{
    Some(digit(high)? * 16 + digit(low)?)
}

// One digit more behind a number.
#[tactic(auto, unfolding(rules::specs::Choice::when))]
fn longer(n: u32, base: u8, b: u8) -> Result<u32, Fault>
    ensures { result ≡ longer_by base n (digit_of b) }
{
    let Some(d) = digit(b) else {
        return Err(Fault::NumberExpected);
    };
    if base <= d {
        return Err(Fault::NumberExpected);
    }
    let longer = u64::from(n) * u64::from(base) + u64::from(d);
    u32::try_from(longer).map_err(|_| Fault::NumberTooLarge)
}

// What the digits say in a base.
#[tactic(auto, unfolding(crate::specs::Numbers::value_of, rules::specs::Choice::when))]
pub fn value(digits: &[u8], base: u8) -> Result<u32, Fault>
    ensures { result ≡ value_of base digits.now }
{
    if digits.is_empty() {
        return Err(Fault::NumberExpected);
    }
    let mut n: u32 = 0;
    for b in digits {
        n = longer(n, base, *b)?;
    }
    Ok(n)
}

// The number that a word writes.
#[tactic(auto, unfolding(crate::specs::Numbers::number_of, rules::specs::Choice::when))]
pub fn number_in(word: &[u8]) -> Result<u32, Fault>
    ensures { result ≡ number_of word.now }
{
    let Some((last, digits)) = word.split_last() else {
        return Err(Fault::NumberExpected);
    };
    if *last == b'h' {
        return value(digits, 16);
    }
    value(word, 10)
}

// Addresses, statuses and sense, as the paper writes them.
use std::fmt;

// A number's last hexadecimal digits, so many, which go out as one text: each write may be a call of the system, and a width in a format writes its zeros one by one.
#[derive(Clone, Copy)]
pub(crate) struct Digits(pub(crate) u32, pub(crate) usize);

impl fmt::Display for Digits {
    fn fmt<W: fmt::Write>(&self, f: &mut fmt::Formatter<W>) -> fmt::Result {
        let mut digits = [b'0'; 8];
        let mut rest = self.0;
        for digit in digits.iter_mut().rev() {
            *digit = b"0123456789ABCDEF"[(rest % 16) as usize];
            rest /= 16;
        }
        let last = digits.get(8usize.saturating_sub(self.1)..).unwrap_or(&[]);
        f.write_str(str::from_utf8(last).unwrap_or_default())
    }
}

// An address, in four digits, or in eight.
#[derive(Clone, Copy)]
pub struct Address(pub u32);

impl fmt::Display for Address {
    fn fmt<W: fmt::Write>(&self, f: &mut fmt::Formatter<W>) -> fmt::Result {
        match self.0 {
            n @ 0..=0xFFFF => write!(f, "{}h", Digits(n, 4)),
            n => write!(f, "{}h", Digits(n, 8)),
        }
    }
}

// A byte, in two digits; a number that is no byte as an address.
#[derive(Clone, Copy)]
pub struct Code(pub u32);

impl fmt::Display for Code {
    fn fmt<W: fmt::Write>(&self, f: &mut fmt::Formatter<W>) -> fmt::Result {
        match self.0 {
            n @ 0..=0xFF => write!(f, "{}h", Digits(n, 2)),
            n => write!(f, "{}", Address(n)),
        }
    }
}

// "ASC/ASCQ"
#[derive(Clone, Copy)]
pub struct Attention(pub u32);

impl fmt::Display for Attention {
    fn fmt<W: fmt::Write>(&self, f: &mut fmt::Formatter<W>) -> fmt::Result {
        let [_, _, asc, ascq] = self.0.to_be_bytes();
        write!(
            f,
            "{}/{}",
            Digits(u32::from(asc), 2),
            Digits(u32::from(ascq), 2)
        )
    }
}

// "KEY/ASC/ASCQ"
#[derive(Clone, Copy)]
pub struct Sense(pub u32);

impl fmt::Display for Sense {
    fn fmt<W: fmt::Write>(&self, f: &mut fmt::Formatter<W>) -> fmt::Result {
        write!(f, "{}/{}", self.0 / 65536, Attention(self.0))
    }
}

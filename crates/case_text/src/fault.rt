// Why a number, a byte or a text can not be read.
#[derive(Clone, Copy, PartialEq, Eq)]
pub enum Fault {
    NumberExpected,
    NumberTooLarge,
    ByteExpected,
    TooManyBytes,
    NoEscape,
}

// Why it can not be read, and where. case_script has a type of its own for its lines: one generic type would be written with its argument in every definition of both, and is no plainer.
#[derive(Clone, Copy, PartialEq, Eq)]
pub struct Stop {
    pub why: Fault,
    pub at: usize,
}

// Why a line can't be read or obeyed.
ghost use Rattle.std.specs.Prelude.{◌≡◌};

use case_script::fault::Fault;
use std::fmt;

// A fault, with the number of the limit that the line went past.
#[derive(Clone, Copy)]
pub struct Reason {
    pub why: Fault,
    pub limit: usize,
}

impl From<Fault> for Reason {
    ghost from_gives = { λ why result. result ≡ record { why = why; limit = 0 } };

    fn from(why: Fault) -> Reason {
        Reason { why, limit: 0 }
    }
}

impl fmt::Display for Reason {
    fn fmt<W: fmt::Write>(&self, f: &mut fmt::Formatter<W>) -> fmt::Result {
        let limit = self.limit;
        write!(f, "{}", said(self.why))?;
        match self.why {
            Fault::TooLarge => write!(f, ", which is {limit} bytes"),
            Fault::Outside => write!(f, ", which has {limit} bytes"),
            _ => Ok(()),
        }
    }
}

// What is said of a fault; of some, a limit follows.
fn said(why: Fault) -> &'static str {
    match why {
        Fault::UnknownWord => "unknown word",
        Fault::NumberExpected => "a number is expected here",
        Fault::NumberTooLarge => "the number is above 4,294,967,295",
        Fault::ByteExpected => "a byte of one or two hexadecimal digits is expected here",
        Fault::TooManyBytes => "more than 32,768 bytes",
        Fault::NoEscape => "`\\t` or `\\xNN` is expected here",
        Fault::LeftOver => "nothing more is expected here",
        Fault::NameMissing => "a name is expected here",
        Fault::NotSet => "this word can't be set",
        Fault::NotTables => "the tables are `small` or `empty`",
        Fault::WrongByteCount => "not as many bytes as this word takes",
        Fault::CommentInText => "no comment can stand behind `log`; `\\x23` stands for `#`",
        Fault::NoElement => "no element has this address",
        Fault::NoHost => "a host from 1 to 8 is expected",
        Fault::Outside => "past the end of the table or the answer buffer",
        Fault::NoCase => "no case has begun",
        Fault::NoCall => "nothing has been called yet",
        Fault::TooLarge => "more than there is room for",
        Fault::AboveByte => "the number is above 255",
        Fault::AboveWord => "the number is above 65,535",
        Fault::NameCut => "a comment begins inside the name",
        Fault::NameTwice => "a case of this name stands before in this file",
        Fault::NotReplayed => "the last call was no replay",
        Fault::Replayed => "the last call was a replay, which has nothing of the kind",
        Fault::NoReplay => "nothing has been replayed yet",
    }
}

// Why a line can not be read, or can not be carried out.
ghost use Rattle.std.specs.Prelude.{◌≡◌};
ghost use Rattle.case_script.specs.Faults.{fault_of, stop_of};

#[derive(Clone, Copy, PartialEq, Eq)]
pub enum Fault {
    // why it can not be read
    UnknownWord,
    NumberExpected,
    NumberTooLarge,
    ByteExpected,
    TooManyBytes,
    NoEscape,
    LeftOver,
    NameMissing,
    NotSet,
    NotTables,
    WrongByteCount,
    CommentInText,
    // why it can not be carried out: for the crates above
    NoElement,
    NoHost,
    Outside,
    NoCase,
    NoCall,
    TooLarge,
    AboveByte,
    AboveWord,
    NameCut,
    NameTwice,
    // what is asked for is of another kind of call than the last, and what goes on has not begun
    NotReplayed,
    Replayed,
    NoReplay,
}

// Why a line can not be read or carried out, and the column, from 0. It is no generic type with that of case_text: see there.
#[derive(Clone, Copy, PartialEq, Eq)]
pub struct Stop {
    pub why: Fault,
    pub at: usize,
}

impl From<case_text::fault::Fault> for Fault {
    ghost from_gives = { λ why result. result ≡ fault_of why };

    fn from(why: case_text::fault::Fault) -> Self {
        match why {
            case_text::fault::Fault::NumberExpected => Fault::NumberExpected,
            case_text::fault::Fault::NumberTooLarge => Fault::NumberTooLarge,
            case_text::fault::Fault::ByteExpected => Fault::ByteExpected,
            case_text::fault::Fault::TooManyBytes => Fault::TooManyBytes,
            case_text::fault::Fault::NoEscape => Fault::NoEscape,
        }
    }
}

impl From<case_text::fault::Stop> for Stop {
    ghost from_gives = { λ stop result. result ≡ stop_of stop };

    fn from(stop: case_text::fault::Stop) -> Self {
        Stop {
            why: Fault::from(stop.why),
            at: stop.at,
        }
    }
}

// How many cases passed and failed.
ghost use Rattle.std.specs.Prelude.{◌≡◌, ◌+◌, ◌-◌, ◌^◌, min};

use case_words::Name;
use std::io::Write;
use std::{fmt, io};

// The largest number stays.
#[derive(Clone, Copy, Default)]
pub struct Counts {
    pub passed: u64,
    pub failed: u64,
}

impl Counts {
    pub fn pass(&mut self)
        ensures passed { self.new.passed ≡ min (self.old.passed + 1) (2 ^ 64 - 1) }
        ensures failed { self.new.failed ≡ self.old.failed }
    {
        self.passed = self.passed.saturating_add(1);
    }

    pub fn fail(&mut self)
        ensures passed { self.new.passed ≡ self.old.passed }
        ensures failed { self.new.failed ≡ min (self.old.failed + 1) (2 ^ 64 - 1) }
    {
        self.failed = self.failed.saturating_add(1);
    }

    // A file that has failed as a whole: `FILE: reason`
    pub fn fail_file<W: Write, D: fmt::Display + Drop>(
        &mut self,
        out: &mut W,
        path: &[u8],
        why: D,
    ) -> io::Result<()>
        ensures passed { self.new.passed ≡ self.old.passed }
        ensures failed { self.new.failed ≡ min (self.old.failed + 1) (2 ^ 64 - 1) }
    {
        self.fail();
        writeln!(out, "{}: {why}", Name(path))
    }
}

impl fmt::Display for Counts {
    fn fmt<W: fmt::Write>(&self, f: &mut fmt::Formatter<W>) -> fmt::Result {
        let Counts { passed, failed } = *self;
        write!(f, "{passed} passed, {failed} failed")
    }
}

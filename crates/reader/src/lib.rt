// RESERVE's parameter list, "read through a reader that holds the lent list and a place".
#![tactic(auto)]

ghost use Rattle.std.specs.Prelude.{◌≡◌, ◌+◌, ◌≤◌, length};
ghost use Rattle.rules.specs.Tables.{descriptor_size};
ghost use Rattle.reader.specs.Read.{step_at};

#[derive(Clone, Copy)]
pub struct Reader<'a> {
    pub list: &'a [u8],
    pub at: usize,
}

// The descriptor at a place, "two zero bytes, number n, address", and the place after it.
#[derive(Clone, Copy)]
pub struct Step {
    pub reserved: u16,
    pub number: u16,
    pub address: u16,
    pub after: usize,
}

// The work, on a plain list and a place.
#[tactic(auto, unfolding(crate::specs::Read::step_at))]
fn descriptor_at(list: &[u8], at: usize) -> Step
    requires { at + descriptor_size ≤ length list.now }
    ensures { result ≡ step_at list.now at }
{
    Step {
        reserved: wire::word_at(list, at),
        number: wire::word_at(list, at + 2),
        address: wire::word_at(list, at + 4),
        after: at + layout::DESCRIPTOR_SIZE,
    }
}

impl<'a> Reader<'a> {
    // What the reader stands at. Whoever goes on makes the next reader at the place after it.
    pub fn next(self) -> Step
        requires { self.at + descriptor_size ≤ length self.list.now }
        ensures { result ≡ step_at self.entry.list.now self.entry.at }
    {
        descriptor_at(self.list, self.at)
    }
}

// The reader is made and read: its contract says nothing of a reader, so callers need no proof by hand.
pub fn read_at(list: &[u8], at: usize) -> Step
    requires { at + descriptor_size ≤ length list.now }
    ensures { result ≡ step_at list.now at }
{
    Reader { list, at }.next()
}

// The sense record of a host, changed where it stands.
#![tactic(auto)]

ghost use Rattle.std.specs.Prelude.{◌≡◌, [], ◌∷◌, ◌+◌, ◌≤◌, length};
ghost use Rattle.rules.specs.Bytes.{put};
ghost use Rattle.record.specs.Sense.{sense_of, sense_at, bytes_of};

// "sense key, ASC, ASCQ". What else a host's bytes hold stands beside it.
#[derive(Clone, Copy)]
pub struct Sense {
    pub key: u8,
    pub asc: u8,
    pub ascq: u8,
}

impl Sense {
    fn store(&mut self, key: u8, asc: u8, ascq: u8)
        ensures { self.new ≡ sense_of key asc ascq }
    {
        *self = Sense { key, asc, ascq };
    }

    fn clear(&mut self)
        ensures { self.new ≡ sense_of 0 0 0 }
    {
        self.store(0, 0, 0);
    }
}

// The record in the three bytes from a place on.
fn sense_at(head: &[u8], at: usize) -> Sense
    requires { at + 3 ≤ length head.now }
    ensures { result ≡ sense_at head.now at }
{
    Sense {
        key: head[at],
        asc: head[at + 1],
        ascq: head[at + 2],
    }
}

fn put_sense(head: &mut [u8], at: usize, s: Sense)
    requires { at + 3 ≤ length head.old }
    ensures { head.new ≡ put head.old at (bytes_of s) }
{
    wire::put(head, at, [s.key, s.asc, s.ascq]);
}

// "CHECK CONDITION then stores the new one": the record at a place is key, ASC, ASCQ.
pub fn note(head: &mut [u8], at: usize, key: u8, asc: u8, ascq: u8)
    requires { at + 3 ≤ length head.old }
    ensures { head.new ≡ put head.old at (key ∷ asc ∷ ascq ∷ []) }
{
    let mut s = sense_at(head, at);
    s.store(key, asc, ascq);
    put_sense(head, at, s);
}

// "zeros: none": the record at a place is cleared.
pub fn wipe(head: &mut [u8], at: usize)
    requires { at + 3 ≤ length head.old }
    ensures { head.new ≡ put head.old at (0 ∷ 0 ∷ 0 ∷ []) }
{
    let mut s = sense_at(head, at);
    s.clear();
    put_sense(head, at, s);
}

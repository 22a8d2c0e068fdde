// Marks of volume numbers, a bit for each: a table of few bytes, which is soon cleared.
ghost use Rattle.std.specs.Prelude.{◌≡◌, ◌*◌, ◌<◌, ◌≤◌, not, length, replicate};
ghost use Rattle.rules.specs.Tables.{most_volumes};
ghost use Rattle.sound.specs.Checks.{marked, marking};

// The bits of a word.
const BITS: usize = 64;

// Words enough for every volume number.
const WORDS: usize = layout::MOST_VOLUMES / BITS + 1;

// The volume numbers that were seen: every number has a bit.
#[derive(Drop)]
pub struct Seen {
    pub words: [u64; WORDS],
    pub ghost room: { most_volumes < 64 * length words },
}

impl Seen {
    // No number was seen.
    pub fn new() -> Self
        ensures { result.words ≡ replicate 9 0 }
    {
        Seen { words: [0; WORDS] }
    }

    // Marks the number, and tells whether it had no mark.
    #[tactic(auto, using(crate::proofs::Bits::bit_is), unfolding(crate::specs::Checks::marked, crate::specs::Checks::marking))]
    pub fn insert(&mut self, number: usize) -> bool
        requires { number ≤ most_volumes }
        ensures fresh { result ≡ not (marked self.old.words number) }
        ensures words { self.new.words ≡ marking self.old.words number }
    {
        let bit = 1 << (number % BITS);
        let word = self.words[number / BITS];
        self.words[number / BITS] = word | bit;
        (word >> (number % BITS)) % 2 != 1
    }
}

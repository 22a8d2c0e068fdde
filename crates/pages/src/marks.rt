// Marks: a byte for each place, not 0 where the element there is one of those that a listing is of. An empty slice marks every one, and no
// `None` beside it, since the definitions of specs/Marks are of lists.
ghost use Rattle.std.specs.Prelude.{◌≡◌, ◌+◌, ◌<◌};
ghost use Rattle.pages.specs.Marks.{marked_at, marks_in, reach_of};

// Whether the element at a place is marked; behind the marks none is.
pub fn marked(marks: &[u8], place: usize) -> bool
    ensures { result ≡ marked_at marks.now place }
{
    if marks.is_empty() {
        return true;
    }
    match marks.get(place) {
        Some(mark) => *mark != 0,
        None => false,
    }
}

// How many of n places are marked, from a place on. The number is counted in 16 bits, and not by `count` in 64, so that the compiler adds eight at
// a time.
pub fn count(marks: &[u8], place: usize, n: usize) -> usize
    requires { (place + n < 16777216) × (n < 65536) }
    ensures { result ≡ marks_in marks.now n place }
{
    if marks.is_empty() {
        return n;
    }
    let end = marks.len().min(place + n);
    let mut k: u16 = 0;
    for mark in &marks[place.min(end)..end] {
        if *mark != 0 {
            k += 1;
        }
    }
    k as usize
}

// How many of n places reach to the m-th that is marked, from a place on.
pub fn reach(marks: &[u8], place: usize, n: usize, m: usize) -> usize
    requires { place + n < 16777216 }
    ensures { result ≡ reach_of marks.now m n place }
{
    if marks.is_empty() {
        return m.min(n);
    }
    let mut left = m;
    for i in 0..n {
        if left == 0 {
            return i;
        }
        if marked(marks, place + i) {
            left -= 1;
        }
    }
    n
}

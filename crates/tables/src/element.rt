// The fields of the element at a place, and the writes. That the place is in the table is asked of each: it is a fact of a place and a table together, and the tables change.
ghost use Rattle.std.specs.Prelude.{◌≡◌, ◌+◌, ◌≤◌, length};
ghost use Rattle.rules.specs.Tables.{element_size, element_at, places, volume, source, holder, id, mark, zero_byte, filled, held_at};

// How many records the table holds.
pub fn places(elements: &[u8]) -> usize
    ensures { result ≡ places elements.now }
{
    elements.len() / layout::ELEMENT_SIZE
}

// "volume number (2; 0 empty)"
pub fn volume(elements: &[u8], place: usize) -> u16
    requires { element_at place + element_size ≤ length elements.now }
    ensures { result ≡ volume elements.now place }
{
    wire::word_at(elements, layout::ELEMENT_SIZE * place)
}

// "source address (2; 0 none)"
pub fn source(elements: &[u8], place: usize) -> u16
    requires { element_at place + element_size ≤ length elements.now }
    ensures { result ≡ source elements.now place }
{
    wire::word_at(elements, layout::ELEMENT_SIZE * place + layout::SOURCE)
}

// "holder (1)"
pub fn holder(elements: &[u8], place: usize) -> u8
    requires { element_at place + element_size ≤ length elements.now }
    ensures { result ≡ holder elements.now place }
{
    elements[layout::ELEMENT_SIZE * place + layout::HOLDER]
}

// "reservation id (1)"
pub fn id(elements: &[u8], place: usize) -> u8
    requires { element_at place + element_size ≤ length elements.now }
    ensures { result ≡ id elements.now place }
{
    elements[layout::ELEMENT_SIZE * place + layout::ID]
}

// "hand mark (1)"
pub fn mark(elements: &[u8], place: usize) -> u8
    requires { element_at place + element_size ≤ length elements.now }
    ensures { result ≡ mark elements.now place }
{
    elements[layout::ELEMENT_SIZE * place + layout::MARK]
}

// "zero (1)"
pub fn zero_byte(elements: &[u8], place: usize) -> u8
    requires { element_at place + element_size ≤ length elements.now }
    ensures { result ≡ zero_byte elements.now place }
{
    elements[layout::ELEMENT_SIZE * place + layout::ZERO]
}

// Volume, source and mark of the element at a place.
pub fn fill(elements: &mut [u8], place: usize, volume: u16, source: u16, mark: u8)
    requires { element_at place + element_size ≤ length elements.old }
    ensures { elements.new ≡ filled elements.old place volume source mark }
{
    let at = layout::ELEMENT_SIZE * place;
    wire::put_word(elements, at, volume);
    wire::put_word(elements, at + layout::SOURCE, source);
    elements[at + layout::MARK] = mark;
}

// Holder and id of the element at a place.
pub fn hold(elements: &mut [u8], place: usize, host: u8, id: u8)
    requires { element_at place + element_size ≤ length elements.old }
    ensures { elements.new ≡ held_at host id place elements.old }
{
    wire::put(
        elements,
        layout::ELEMENT_SIZE * place + layout::HOLDER,
        [host, id],
    );
}

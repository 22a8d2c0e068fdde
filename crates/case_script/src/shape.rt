// What belongs to a word.
#[derive(Clone, Copy, PartialEq, Eq)]
pub enum Shape {
    // a name, and the name of tables
    Name,
    Tables,
    // numbers alone
    Nothing,
    One,
    Two,
    // bytes, and text
    Bytes,
    Text,
    // a number, and behind it bytes, of which there must be as many
    NumberAndBytes,
    NumberAndTwoBytes,
    NumberAndThreeBytes,
}

// The classes of words: what a word is for. Most crates go by the class of a word, and not by the word.
#[derive(Clone, Copy, PartialEq, Eq)]
pub enum Class {
    // `case`
    Case,
    // the tables as a whole, a range of the head, the length of a table, the label of a volume
    Whole,
    Range,
    Length,
    Label,
    // what the calls that follow are given, and the calls: of a command or an event, and of a replay
    Ahead,
    Call,
    Replay,
    // what is expected: of the reply, of a replay's end, the answer, an element, the unit, a host's record, a table's bytes, and that all was kept
    Reply,
    Replayed,
    Answer,
    Element,
    Unit,
    Record,
    Table,
    Kept,
}

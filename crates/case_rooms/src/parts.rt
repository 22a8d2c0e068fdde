// The room of a case: its tables, the parameters, the log, the tables that a call writes as they were before the last, and the answer, one behind the other.
ghost use Rattle.std.specs.Prelude.{◌≡◌, ◌≤◌};
ghost use Rattle.case_rooms.specs.Parts.{table_of, begin_of, parameters_at};

use case_script::word::Word;

// How many bytes each part may have: a table somewhat more than a sound one, so that refusals of large tables can be shown.
pub const HEAD_MOST: usize = layout::HEAD_SIZE + 6;

pub const ELEMENTS_MOST: usize = layout::ELEMENT_SIZE * (layout::MOST_ELEMENTS + 32);

pub const TAGS_MOST: usize = layout::TAG_SIZE * (layout::MOST_VOLUMES + 5);

pub const BLANK_MOST: usize = layout::TAG_SIZE + 28;

pub const GENERATIONS_MOST: usize = layout::MOST_VOLUMES + 5;

pub const MASKS_MOST: usize = layout::MOST_ELEMENTS + 32;

pub const SEARCH_MOST: usize = layout::SEARCH_SIZE + 23;

pub const PARAMETERS_MOST: usize = 1024;

pub const LOG_MOST: usize = 4096;

pub const ANSWER_MOST: usize = 32768;

// Where each begins; a constant for each, since a constant that reads two fields of the one before it grows past what the compiler takes.
pub const HEAD_AT: usize = 0;

pub const ELEMENTS_AT: usize = HEAD_AT + HEAD_MOST;

pub const TAGS_AT: usize = ELEMENTS_AT + ELEMENTS_MOST;

pub const BLANK_AT: usize = TAGS_AT + TAGS_MOST;

pub const GENERATIONS_AT: usize = BLANK_AT + BLANK_MOST;

pub const MASKS_AT: usize = GENERATIONS_AT + GENERATIONS_MOST;

pub const SEARCH_AT: usize = MASKS_AT + MASKS_MOST;

pub const PARAMETERS_AT: usize = SEARCH_AT + SEARCH_MOST;

pub const LOG_AT: usize = PARAMETERS_AT + PARAMETERS_MOST;

pub const KEPT_HEAD_AT: usize = LOG_AT + LOG_MOST;

pub const KEPT_ELEMENTS_AT: usize = KEPT_HEAD_AT + HEAD_MOST;

pub const KEPT_SEARCH_AT: usize = KEPT_ELEMENTS_AT + ELEMENTS_MOST;

pub const ANSWER_AT: usize = KEPT_SEARCH_AT + SEARCH_MOST;

pub const ROOM: usize = ANSWER_AT + ANSWER_MOST;

// The bytes that a line gives.
pub const BYTES: usize = ANSWER_MOST;

// The tables that a call is lent.
#[derive(Clone, Copy)]
pub enum Table {
    Head,
    Elements,
    Tags,
    Blank,
    Generations,
    Masks,
    Search,
}

pub const TABLES: usize = 7;

// Where a part begins, and how many bytes it may have.
#[derive(Clone, Copy)]
pub struct Part {
    pub at: usize,
    pub most: usize,
}

impl Table {
    // The table that a word speaks of: by its length, or by its bytes.
    pub fn of(word: Word) -> Table
        ensures { result ≡ table_of word }
    {
        match word {
            Word::LengthElements | Word::Elements => Table::Elements,
            Word::Volumes | Word::Label | Word::LengthTags | Word::Tags => Table::Tags,
            Word::LengthBlank | Word::Blank => Table::Blank,
            Word::LengthGenerations | Word::Generations => Table::Generations,
            Word::LengthMasks | Word::Masks => Table::Masks,
            Word::LengthSearch | Word::Search => Table::Search,
            _ => Table::Head,
        }
    }

    // Where a table lies.
    pub fn part(self) -> Part
        ensures begins { result.at ≡ begin_of self }
        ensures within { result.at ≤ parameters_at }
        ensures most { result.most ≤ parameters_at }
    {
        let (at, most) = match self {
            Table::Head => (HEAD_AT, HEAD_MOST),
            Table::Elements => (ELEMENTS_AT, ELEMENTS_MOST),
            Table::Tags => (TAGS_AT, TAGS_MOST),
            Table::Blank => (BLANK_AT, BLANK_MOST),
            Table::Generations => (GENERATIONS_AT, GENERATIONS_MOST),
            Table::Masks => (MASKS_AT, MASKS_MOST),
            Table::Search => (SEARCH_AT, SEARCH_MOST),
        };
        Part { at, most }
    }
}

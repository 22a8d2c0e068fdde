// The words of a case file, and what belongs to each.
ghost use Rattle.std.specs.Prelude.{◌≡◌};
ghost use Rattle.case_script.specs.Names.{shape_of, class_of, can_be_set};

use crate::class::Class;
use crate::shape::Shape;

#[derive(Clone, Copy, PartialEq, Eq)]
pub enum Word {
    Case,
    TablesSmall,
    TablesEmpty,
    Transport,
    Storage,
    Port,
    Drive,
    Volumes,
    Label,
    LengthHead,
    LengthElements,
    LengthTags,
    LengthBlank,
    LengthGenerations,
    LengthMasks,
    LengthSearch,
    Host,
    Buffer,
    Parameters,
    Log,
    LogBytes,
    Command,
    Import,
    Export,
    Reset,
    Replay,
    Resume,
    Number,
    Status,
    Count,
    Preventers,
    Lowest,
    Lines,
    Place,
    Expected,
    Answer,
    Volume,
    Source,
    Holder,
    Id,
    Mark,
    Unit,
    Mask,
    Free,
    Sense,
    Attention,
    Head,
    Elements,
    Tags,
    Blank,
    Generations,
    Masks,
    Search,
    Kept,
}

// How each is written; the words of `tables NAME` are told apart by the name.
pub const NAMES: [(&[u8], Word); 53] = [
    (b"case", Word::Case),
    (b"tables", Word::TablesSmall),
    (b"transport", Word::Transport),
    (b"storage", Word::Storage),
    (b"port", Word::Port),
    (b"drive", Word::Drive),
    (b"volumes", Word::Volumes),
    (b"label", Word::Label),
    (b"length-head", Word::LengthHead),
    (b"length-elements", Word::LengthElements),
    (b"length-tags", Word::LengthTags),
    (b"length-blank", Word::LengthBlank),
    (b"length-generations", Word::LengthGenerations),
    (b"length-masks", Word::LengthMasks),
    (b"length-search", Word::LengthSearch),
    (b"host", Word::Host),
    (b"buffer", Word::Buffer),
    (b"parameters", Word::Parameters),
    (b"log", Word::Log),
    (b"log-bytes", Word::LogBytes),
    (b"command", Word::Command),
    (b"import", Word::Import),
    (b"export", Word::Export),
    (b"reset", Word::Reset),
    (b"replay", Word::Replay),
    (b"resume", Word::Resume),
    (b"number", Word::Number),
    (b"status", Word::Status),
    (b"count", Word::Count),
    (b"preventers", Word::Preventers),
    (b"lowest", Word::Lowest),
    (b"lines", Word::Lines),
    (b"place", Word::Place),
    (b"expected", Word::Expected),
    (b"answer", Word::Answer),
    (b"volume", Word::Volume),
    (b"source", Word::Source),
    (b"holder", Word::Holder),
    (b"id", Word::Id),
    (b"mark", Word::Mark),
    (b"unit", Word::Unit),
    (b"mask", Word::Mask),
    (b"free", Word::Free),
    (b"sense", Word::Sense),
    (b"attention", Word::Attention),
    (b"head", Word::Head),
    (b"elements", Word::Elements),
    (b"tags", Word::Tags),
    (b"blank", Word::Blank),
    (b"generations", Word::Generations),
    (b"masks", Word::Masks),
    (b"search", Word::Search),
    (b"kept", Word::Kept),
];

impl Word {
    // What belongs to a word.
    pub fn shape(self) -> Shape
        ensures { result ≡ shape_of self }
    {
        match self {
            Word::Case => Shape::Name,
            Word::TablesSmall | Word::TablesEmpty => Shape::Tables,
            Word::Parameters | Word::LogBytes | Word::Command => Shape::Bytes,
            Word::Log => Shape::Text,
            Word::Label
            | Word::Answer
            | Word::Head
            | Word::Elements
            | Word::Tags
            | Word::Blank
            | Word::Generations
            | Word::Masks
            | Word::Search => Shape::NumberAndBytes,
            Word::Attention => Shape::NumberAndTwoBytes,
            Word::Sense => Shape::NumberAndThreeBytes,
            Word::Reset | Word::Kept => Shape::Nothing,
            Word::Volumes
            | Word::LengthHead
            | Word::LengthElements
            | Word::LengthTags
            | Word::LengthBlank
            | Word::LengthGenerations
            | Word::LengthMasks
            | Word::LengthSearch
            | Word::Host
            | Word::Buffer
            | Word::Export
            | Word::Resume
            | Word::Number
            | Word::Status
            | Word::Count
            | Word::Preventers
            | Word::Lowest
            | Word::Lines
            | Word::Place
            | Word::Expected
            | Word::Unit
            | Word::Mask
            | Word::Free => Shape::One,
            Word::Transport
            | Word::Storage
            | Word::Port
            | Word::Drive
            | Word::Import
            | Word::Replay
            | Word::Volume
            | Word::Source
            | Word::Holder
            | Word::Id
            | Word::Mark => Shape::Two,
        }
    }

    // What a word is for.
    pub fn class(self) -> Class
        ensures { result ≡ class_of self }
    {
        match self {
            Word::Case => Class::Case,
            Word::TablesSmall | Word::TablesEmpty => Class::Whole,
            Word::Transport | Word::Storage | Word::Port | Word::Drive => Class::Range,
            Word::Volumes
            | Word::LengthHead
            | Word::LengthElements
            | Word::LengthTags
            | Word::LengthBlank
            | Word::LengthGenerations
            | Word::LengthMasks
            | Word::LengthSearch => Class::Length,
            Word::Label => Class::Label,
            Word::Host | Word::Buffer | Word::Parameters | Word::Log | Word::LogBytes =>
                Class::Ahead,
            Word::Command | Word::Import | Word::Export | Word::Reset => Class::Call,
            Word::Replay | Word::Resume => Class::Replay,
            Word::Number | Word::Status | Word::Count | Word::Preventers | Word::Lowest =>
                Class::Reply,
            Word::Lines | Word::Place | Word::Expected => Class::Replayed,
            Word::Answer => Class::Answer,
            Word::Volume | Word::Source | Word::Holder | Word::Id | Word::Mark => Class::Element,
            Word::Unit | Word::Mask | Word::Free => Class::Unit,
            Word::Sense | Word::Attention => Class::Record,
            Word::Head
            | Word::Elements
            | Word::Tags
            | Word::Blank
            | Word::Generations
            | Word::Masks
            | Word::Search => Class::Table,
            Word::Kept => Class::Kept,
        }
    }

    // "Words that can be set", by their class
    pub fn can_be_set(self) -> bool
        ensures { result ≡ can_be_set self }
    {
        matches!(
            self.class(),
            Class::Element | Class::Unit | Class::Record | Class::Table
        )
    }
}

// The number of a limit that a line went past, for what is told of it.
use case_rooms::parts::{self, Table};
use case_rooms::{Finding, State};
use case_script::class::Class;
use case_script::fault::Fault;
use case_script::word::Word;

// How many bytes there may be.
fn most(what: Word) -> usize {
    match what {
        Word::Buffer => parts::ANSWER_MOST,
        Word::Parameters => parts::PARAMETERS_MOST,
        Word::Log | Word::LogBytes => parts::LOG_MOST,
        Word::Transport | Word::Storage | Word::Port | Word::Drive => parts::ELEMENTS_MOST,
        _ => Table::of(what).part().most,
    }
}

// How many bytes the head has where it is short, else the elements.
fn extent_of_fields(state: State) -> usize {
    let head = state.length(Table::Head);
    if head < layout::HEAD_SIZE {
        return head;
    }
    state.length(Table::Elements)
}

// How many bytes there are.
fn extent(state: State, what: Word) -> usize {
    match what.class() {
        Class::Answer => state.answered(),
        Class::Table | Class::Label => state.length(Table::of(what)),
        _ => extent_of_fields(state),
    }
}

pub fn of(state: State, what: Word, finding: Result<Finding, Fault>) -> usize {
    match finding {
        Ok(_) => 0,
        Err(Fault::Outside) => extent(state, what),
        Err(_) => most(what),
    }
}

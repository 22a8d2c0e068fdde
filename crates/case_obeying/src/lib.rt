// What a line of a case asks for, carried out: a call of the core, a replay, or what needs neither.
#![tactic(auto)]

use case_rooms::{Effect, State};
use case_script::Line;
use case_script::class::Class;

pub fn obey(state: State, line: Line, room: &mut [u8], bytes: &[u8]) -> Effect {
    match line.word.class() {
        Class::Call if !line.set => {
            case_calls::call(state, line, room, case_doing::given(line, bytes))
        },
        Class::Replay if !line.set => {
            Effect::behind(state, case_replay::replay(state, line, room))
        },
        _ => case_doing::obey(state, line, room, bytes),
    }
}

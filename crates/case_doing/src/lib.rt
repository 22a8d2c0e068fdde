// What a line of a case asks to be done; and all of it that makes no call of the core.
#![tactic(auto)]

ghost use Rattle.std.specs.Prelude.{◌≡◌, false};
ghost use Rattle.case_rooms.specs.Parts.{part as part_of};

use case_rooms::{Effect, State};
use case_script::Line;
use case_script::class::Class;
use case_script::fault::Stop;
use case_script::word::Word;

// The line that is to be obeyed: it is of a case that has begun, and begins none itself.
pub fn to_do(begun: bool, reading: Result<Option<Line>, Stop>) -> Option<Line>
    ensures { begun ≡ false → result ≡ None }
{
    match reading {
        Ok(Some(line)) if begun && line.word != Word::Case => Some(line),
        _ => None,
    }
}

// The bytes that a line gives stand at the front of `bytes`.
pub fn given(line: Line, bytes: &[u8]) -> &[u8]
    ensures { result.now ≡ part_of bytes.now 0 line.count }
{
    case_rooms::part(bytes, 0, line.count)
}

// Does what a line asks for; the calls are made elsewhere.
pub fn obey(state: State, line: Line, room: &mut [u8], bytes: &[u8]) -> Effect {
    let bytes = given(line, bytes);
    let after = match line.word.class() {
        _ if line.set => case_setting::set(state, line, room, bytes),
        Class::Whole | Class::Range | Class::Length | Class::Label => {
            case_setup::build::build(state, line, room, bytes)
        },
        Class::Ahead => case_keeping::prepare(state, line, room, bytes),
        Class::Call | Class::Replay => Ok(state),
        _ => {
            let finding = case_trial::judge::judge(state, line, room, bytes);
            return Effect { state, finding };
        },
    };
    Effect::behind(state, after)
}

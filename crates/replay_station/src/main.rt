// Answers cases of a session from standard input: each is a script of events, and the answer to an event is a line of
// numbers. docs/REPLAY.md has the form of both.

#![tactic(auto)]

mod events;
mod script;

use replay_io::answers::answer_all;
use replay_io::argument::{rest, u8_at};
use replay_io::input;
use replay_io::input::HEAD;
use replay_io::line::Text;

// The op of a station script, the only one that this program answers.
const STATION_SCRIPT: u8 = 20;

// Puts the answer to a case: the lines of a script, or `none` if the op is not in the table.
fn answer(out: &mut Text, case: &[u8]) {
    let op = u8_at(case, 0);
    if op == STATION_SCRIPT {
        script::run(out, op, rest(case, HEAD));
    } else {
        out.op(op);
        out.none();
        out.end();
    }
}

fn main(rt: HostRuntime) {
    let mut input = [0u8; input::SIZE];
    let mut out = Text::new(rt.stdout());
    answer_all(&mut rt.stdin(), &mut input, &mut out, answer);
}

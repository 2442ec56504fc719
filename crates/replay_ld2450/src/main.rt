// Answers cases of the LD2450 from standard input: a frame that is read or written, or a script of calls on a parser.
// The answer to a call is a line of numbers. docs/REPLAY.md has the form of both.

#![tactic(auto)]

mod frames;
mod scripts;
mod targets;

use replay_io::answers::answer_all;
use replay_io::argument::{rest, u8_at};
use replay_io::input;
use replay_io::input::HEAD;
use replay_io::line::Text;

// The ops of the LD2450.
#[derive(Clone, Copy)]
enum Op {
    // A frame is read.
    Read,
    // A frame is written.
    Write,
    // A script of calls on a parser.
    Script,
}

impl Op {
    // Returns the op with a number, if it is in the table and takes the argument.
    fn of(number: u8, argument: &[u8]) -> Option<Op> {
        match number {
            30 => Some(Op::Read),
            31 if argument.len() >= frames::SHORTEST_WRITTEN => Some(Op::Write),
            32 => Some(Op::Script),
            _ => None,
        }
    }
}

// Puts the answer to a case: the lines of a script, or one line; `none` if no op of the table takes the argument.
fn answer(out: &mut Text, case: &[u8]) {
    let number = u8_at(case, 0);
    let argument = rest(case, HEAD);
    match Op::of(number, argument) {
        Some(Op::Script) => scripts::run(out, number, argument),
        Some(Op::Read) => one_line(out, number, |out| frames::read(out, argument)),
        Some(Op::Write) => one_line(out, number, |out| frames::write(out, argument)),
        None => one_line(out, number, |out| out.none()),
    }
}

// Puts a line: the op's number, and what `fields` puts.
fn one_line<F: Fn(&mut Text)>(out: &mut Text, number: u8, fields: F)
    requires { F.IsAlwaysCallable fields }
{
    out.op(number);
    fields(out);
    out.end();
}

fn main(rt: HostRuntime) {
    let mut input = [0u8; input::SIZE];
    let mut out = Text::new(rt.stdout());
    answer_all(&mut rt.stdin(), &mut input, &mut out, answer);
}

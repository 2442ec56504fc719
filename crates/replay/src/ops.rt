// The table of the ops. Each answer takes the text that it puts its numbers to, and the argument that it reads: a
// struct of the two would be made for one call.
use crate::scripts::Run;
use crate::{commands, loads, readers, writers};
use replay_io::argument::{rest, u8_at};
use replay_io::input::HEAD;
use replay_io::line::Text;

// An op of one line: all but those of scripts.
#[derive(Clone, Copy)]
enum Op {
    TargetState,
    Report,
    Ack,
    Replies,
    Frame,
    Encode,
    WriteReport,
    WriteAck,
    ReadCommand,
    Baud,
    BuiltReplies,
    Load,
}

// Puts the answer to a case: the lines of a script, or one line.
pub fn answer(out: &mut Text, case: &[u8]) {
    let number = u8_at(case, 0);
    let argument = rest(case, HEAD);
    match Run::of(number, argument) {
        Some(run) => run.answer(out),
        None => one_line(out, number, argument),
    }
}

// Puts the line of an op that is not one of scripts; `none` if the op is not in the table or does not take the
// argument.
fn one_line(out: &mut Text, number: u8, argument: &[u8]) {
    out.op(number);
    match Op::of(number, argument) {
        Some(op) => op.answer(out, argument),
        None => out.none(),
    }
    out.end();
}

impl Op {
    // Returns the op with a number, if it is in the table and takes the argument: so it is no conversion of a number.
    fn of(number: u8, argument: &[u8]) -> Option<Op> {
        let (op, shortest) = match number {
            1 => (Op::TargetState, 1),
            2 => (Op::Report, 0),
            3 => (Op::Ack, 0),
            4 => (Op::Replies, 2),
            5 => (Op::Frame, 0),
            6 => (Op::Encode, 9),
            7 if writers::has_report(argument) => (Op::WriteReport, 42),
            8 => (Op::WriteAck, 8),
            9 => (Op::ReadCommand, 0),
            12 => (Op::Baud, 2),
            14 => (Op::BuiltReplies, 23),
            15 if loads::has_buffer(argument) => (Op::Load, 9),
            _ => return None,
        };
        (argument.len() >= shortest).then_some(op)
    }

    // Puts what follows the op in its line.
    fn answer(self, out: &mut Text, argument: &[u8]) {
        match self {
            Op::TargetState => readers::target_state(out, argument),
            Op::Report => readers::report(out, argument),
            Op::Ack => readers::ack(out, argument),
            Op::Replies => readers::replies(out, argument),
            Op::Frame => readers::frame(out, argument),
            Op::Encode => writers::encode(out, argument),
            Op::WriteReport => writers::report(out, argument),
            Op::WriteAck => writers::ack(out, argument),
            Op::ReadCommand => commands::read(out, argument),
            Op::Baud => commands::baud(out, argument),
            Op::BuiltReplies => readers::replies_of_built(out, argument),
            Op::Load => loads::write(out, argument),
        }
    }
}

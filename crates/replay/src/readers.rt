// Ops 1 to 5 and 14: the readers of reports, acknowledgements and whole frames, and the replies of an acknowledgement.
// Each puts the numbers that follow its op.
use crate::numbers::usize_at;
use crate::values::Fields;
use crate::{replies, values};
use ld2410::{Ack, Frame, Report, Span, TargetState};
use refusal::refusal_number;
use replay_io::argument::{flag_at, rest, u8_at, u16_at};
use replay_io::line::Text;

// Answers op 1, on a byte.
pub fn target_state(out: &mut Text, argument: &[u8]) {
    TargetState::from_byte(u8_at(argument, 0)).put(out);
}

// Answers op 2, on a report's data.
pub fn report(out: &mut Text, bytes: &[u8]) {
    values::answer(out, Report::parse(bytes));
}

// Answers op 3, on an acknowledgement's data.
pub fn ack(out: &mut Text, bytes: &[u8]) {
    values::answer(out, Ack::parse(bytes));
}

// Answers op 4, on an awaited word and an acknowledgement's data.
pub fn replies(out: &mut Text, argument: &[u8]) {
    let bytes = rest(argument, 2);
    let read = Ack::parse(bytes);
    out.number(refusal_number(read));
    if let Ok(ack) = read {
        replies::all(out, ack, u16_at(argument, 0), bytes);
    }
}

// Answers op 5, on the bytes of a whole frame.
pub fn frame(out: &mut Text, bytes: &[u8]) {
    let read = Frame::parse(bytes);
    out.number(refusal_number(read));
    values::frame(out, read.ok());
}

// Answers op 14, on the fields of an acknowledgement, an awaited word and the bytes that hold the payload.
pub fn replies_of_built(out: &mut Text, argument: &[u8]) {
    replies::all(
        out,
        ack_in(argument),
        u16_at(argument, 21),
        rest(argument, 23),
    );
}

// Builds the acknowledgement from its fields.
fn ack_in(argument: &[u8]) -> Ack {
    Ack {
        word: u16_at(argument, 0),
        ok: flag_at(argument, 2),
        status: u16_at(argument, 3),
        payload: Span {
            start: usize_at(argument, 5),
            len: usize_at(argument, 13),
        },
    }
}

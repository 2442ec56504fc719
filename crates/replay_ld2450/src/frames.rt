// Ops 30 and 31: a frame that is read, and one that is written. Each puts the numbers that follow its op.
use crate::targets;
use crate::targets::{VALUE_LEN, targets_in};
use ld2450_parser::{Error, TARGETS, Target, read_targets, write_targets};
use refusal::refusal_number;
use replay_io::argument::{rest, u8_at, u16_at};
use replay_io::line::Text;

// The longest buffer that is written into.
const LONGEST: usize = 65_535;

// Where the value begins in the argument of the writer, after a buffer's length and the byte that fills it.
const VALUE_AT: usize = 3;

// Least bytes of the argument of the writer.
pub const SHORTEST_WRITTEN: usize = VALUE_AT + VALUE_LEN;

// Puts what follows op 30, on any bytes.
pub fn read(out: &mut Text, bytes: &[u8]) {
    let read = read_targets(bytes);
    out.number(refusal_number(read));
    targets::put(out, read.unwrap_or([Target::default(); TARGETS]));
}

// Puts what follows op 31: writes into a buffer that is full of one byte.
pub fn write(out: &mut Text, argument: &[u8]) {
    let mut buffer = [u8_at(argument, 2); LONGEST];
    write_in_front(out, argument, &mut buffer);
}

// Writes into the front of the buffer, as many bytes of it as the argument says, and puts the answer and the front.
fn write_in_front(out: &mut Text, argument: &[u8], buffer: &mut [u8]) {
    let end = usize::from(u16_at(argument, 0)).min(buffer.len());
    let front = &mut buffer[..end];
    let answer = write_targets(front, targets_in(rest(argument, VALUE_AT)));
    out.numbers(&returned(answer));
    out.numbers(front);
}

// Returns the refusal, and the bytes written or needed.
fn returned(answer: Result<usize, Error>) -> [usize; 2] {
    match answer {
        Ok(count) => [0, count],
        Err(error) => [usize::from(error.number()), error.needed()],
    }
}

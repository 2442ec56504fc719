// Op 15, the load of a seed. Its argument is a seed, a buffer's length, and the byte that fills the buffer.
use crate::writers::in_front;
use ld2410::write_load;
use replay_io::argument::{u8_at, u32_at};
use replay_io::line::Text;

// The longest buffer.
const LONGEST: usize = 70_000;

// Tests whether the buffer has at most the longest length.
pub fn has_buffer(argument: &[u8]) -> bool {
    u32_at(argument, 4) as usize <= LONGEST
}

// Writes the load into a buffer of the argument's length, each byte filled as it says, and puts the refusal, the filled
// length and the buffer.
pub fn write(out: &mut Text, argument: &[u8]) {
    let fill = u8_at(argument, 8);
    let mut longest = [fill; LONGEST];
    in_front(out, &mut longest, u32_at(argument, 4) as usize, |buffer| {
        match write_load(buffer, u32_at(argument, 0)) {
            Ok(filled) => (0, filled),
            Err(e) => (e.number(), 0),
        }
    });
}

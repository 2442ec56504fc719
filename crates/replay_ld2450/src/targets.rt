// Three targets: TARGETS as numbers of a line, and TARGETS VALUE in an argument.
use ld2450_parser::{TARGETS, Target};
use replay_io::argument::{flag_at, rest, u16_at};
use replay_io::line::Text;
use std::array;

// Bytes of a target's value: whether it is present, then four numbers of two bytes.
const ENTRY_LEN: usize = 9;

// Bytes of the value of three targets.
pub const VALUE_LEN: usize = TARGETS * ENTRY_LEN;

// Puts three targets, each as whether it is present, then its fields.
pub fn put(out: &mut Text, targets: [Target; TARGETS]) {
    for target in targets {
        out.number(target.present);
        out.signed(target.x);
        out.signed(target.y);
        out.signed(target.speed);
        out.number(target.resolution);
    }
}

// Reads the three targets in a value.
pub fn targets_in(value: &[u8]) -> [Target; TARGETS] {
    array::from_fn(|i| target_in(rest(value, i * ENTRY_LEN)))
}

// Reads the target in its nine bytes.
fn target_in(value: &[u8]) -> Target {
    Target {
        present: flag_at(value, 0),
        x: i16_at(value, 1),
        y: i16_at(value, 3),
        speed: i16_at(value, 5),
        resolution: u16_at(value, 7),
    }
}

// Reads the two-byte number in two's complement: with the top bit set it is below 0, and counts down from -1.
fn i16_at(value: &[u8], at: usize) -> i16 {
    u16_at(value, at).cast_signed()
}

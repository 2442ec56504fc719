// Ops 6 to 8: the writers of commands, reports and acknowledgements. An argument is a buffer's length, the byte that
// fills it, and the value that is written. Each puts the numbers that follow its op.
use ld2410::{Engineering, Error, Report, TargetState, write_ack, write_report};
use replay_io::argument::{flag_at, rest, u8_at, u16_at};
use replay_io::commands::command_in;
use replay_io::line::Text;
use wire::{gate_array, zero_padded};

// The longest buffer.
const LONGEST: usize = 65_535;

// Where the value begins in an argument.
const VALUE_AT: usize = 3;

// Where the parts of a report's value begin.
const MOVING_AT: usize = 12;

const STATIONARY_AT: usize = MOVING_AT + 9;

const EXTRA_AT: usize = STATIONARY_AT + 9;

// Writes into a buffer of the argument's length, each byte filled as it says, and puts the refusal, the bytes written
// or needed, and the buffer.
fn written<F: FnOnce(&mut [u8]) -> Result<usize, Error>>(out: &mut Text, argument: &[u8], write: F)
    requires { F.IsAlwaysCallable write }
{
    let fill = u8_at(argument, 2);
    let mut longest = [fill; LONGEST];
    in_front(
        out,
        &mut longest,
        u16_at(argument, 0) as usize,
        |buffer| match write(buffer) {
            Ok(count) => (0, count),
            Err(e) => (e.number(), e.needed()),
        },
    );
}

// Lends the first bytes of a buffer to a writer, and puts its two numbers and those bytes.
pub fn in_front<F: FnOnce(&mut [u8]) -> (u8, usize)>(
    out: &mut Text,
    longest: &mut [u8],
    length: usize,
    write: F,
)
    requires { F.IsAlwaysCallable write }
{
    let end = length.min(longest.len());
    let (refusal, count) = write(&mut longest[..end]);
    out.number(refusal);
    out.number(count);
    out.numbers(&longest[..end]);
}

// Answers op 6: encodes a command, and puts its word and size too; `none` if the bytes are no command.
pub fn encode(out: &mut Text, argument: &[u8]) {
    match command_in(rest(argument, VALUE_AT)) {
        Some(command) => {
            written(out, argument, |buffer| command.encode(buffer));
            out.number(command.word());
            out.number(command.encoded_len());
        }
        None => out.none(),
    }
}

// Tests whether the state of a report's value, if there is one, has a number.
pub fn has_report(argument: &[u8]) -> bool {
    u8_at(argument, VALUE_AT) <= 6
}

// Answers op 7: writes a report.
pub fn report(out: &mut Text, argument: &[u8]) {
    let report = report_in(rest(argument, VALUE_AT));
    written(out, argument, |buffer| write_report(buffer, report));
}

// Answers op 8: writes an acknowledgement, by its word, `ok`, status and payload.
pub fn ack(out: &mut Text, argument: &[u8]) {
    let value = rest(argument, VALUE_AT);
    written(out, argument, |buffer| {
        write_ack(
            buffer,
            u16_at(value, 0),
            flag_at(value, 2),
            u16_at(value, 3),
            rest(value, 5),
        )
    });
}

// Builds the report from its fields.
fn report_in(value: &[u8]) -> Report {
    Report {
        state: TargetState::from_byte(u8_at(value, 0)),
        moving_distance_cm: u16_at(value, 1),
        moving_energy: u8_at(value, 3),
        stationary_distance_cm: u16_at(value, 4),
        stationary_energy: u8_at(value, 6),
        detection_distance_cm: u16_at(value, 7),
        has_engineering: flag_at(value, 9),
        engineering: engineering_in(value),
    }
}

// Builds its engineering block.
fn engineering_in(value: &[u8]) -> Engineering {
    Engineering {
        moving_gates: u8_at(value, MOVING_AT - 2),
        stationary_gates: u8_at(value, MOVING_AT - 1),
        moving_energy: gate_array(rest(value, MOVING_AT)),
        stationary_energy: gate_array(rest(value, STATIONARY_AT)),
        extra: zero_padded(rest(value, EXTRA_AT)),
        extra_len: u8_at(value, EXTRA_AT + 8),
    }
}

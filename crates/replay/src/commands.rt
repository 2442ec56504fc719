// Ops 9 and 12: the reader of command frames, and the rates. Each puts the numbers that follow its op; ops.rt says why
// each takes two things.
use crate::values::{Fields, answer, there};
use ld2410::{Baud, Command, Gate, read_command};
use replay_io::argument::u16_at;
use replay_io::line::Text;

// Answers op 9, on the bytes of a command's frame.
pub fn read(out: &mut Text, bytes: &[u8]) {
    answer(out, read_command(bytes));
}

impl Fields for Command {
    const COUNT: usize = 6;

    fn put(self, out: &mut Text) {
        out.numbers(&six_of(self));
    }
}

// Returns the six bytes of a command.
fn six_of(command: Command) -> [u8; 6] {
    match command {
        Command::EnableConfig => [0, 0, 0, 0, 0, 0],
        Command::EndConfig => [1, 0, 0, 0, 0, 0],
        Command::SetMaxGates {
            moving,
            stationary,
            no_one_secs,
        } => {
            let [low, high] = no_one_secs.to_le_bytes();
            [2, moving, stationary, low, high, 0]
        }
        Command::ReadParameters => [3, 0, 0, 0, 0, 0],
        Command::EngineeringMode(on) => [4, u8::from(on), 0, 0, 0, 0],
        Command::SetSensitivity {
            gate: Gate::Index(gate),
            moving,
            stationary,
        } => [5, 0, gate, moving, stationary, 0],
        Command::SetSensitivity {
            gate: Gate::All,
            moving,
            stationary,
        } => [5, 1, 0, moving, stationary, 0],
        Command::ReadFirmware => [6, 0, 0, 0, 0, 0],
        Command::SetBaud(baud) => [7, (baud.index() % 256) as u8, 0, 0, 0, 0],
        Command::FactoryReset => [8, 0, 0, 0, 0, 0],
        Command::Restart => [9, 0, 0, 0, 0, 0],
        Command::Bluetooth(on) => [10, u8::from(on), 0, 0, 0, 0],
        Command::ReadMac => [11, 0, 0, 0, 0, 0],
    }
}

// Answers op 12, on a rate's index.
pub fn baud(out: &mut Text, argument: &[u8]) {
    there(out, Baud::from_index(u16_at(argument, 0)));
}

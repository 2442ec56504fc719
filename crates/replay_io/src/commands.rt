// The COMMAND of an argument: six bytes.
ghost use Rattle.std.specs.Prelude.{◌≡◌};
ghost use Rattle.replay_io.specs.Command.{command_in, numbered, gate_of};

use crate::argument::{flag_at, u8_at, u16_at};
use command::{Baud, Command, Gate};

// Reads the command that the bytes are; a missing byte counts as 0, and those after the sixth are ignored.
pub fn command_in(six: &[u8]) -> Option<Command>
    ensures read { result ≡ command_in six.now }
{
    numbered(u8_at(six, 0), six)
}

// Reads the command with the number, its values from the bytes after it. The number is the input's, and `Command` of
// another crate, for which no `TryFrom` can be written here.
#[tactic(auto, unfolding(crate::specs::Command::numbered, crate::specs::Command::baud_command))]
fn numbered(number: u8, six: &[u8]) -> Option<Command>
    ensures read { result ≡ numbered number six.now }
{
    Some(match number {
        0 => Command::EnableConfig,
        1 => Command::EndConfig,
        2 => Command::SetMaxGates {
            moving: u8_at(six, 1),
            stationary: u8_at(six, 2),
            no_one_secs: u16_at(six, 3),
        },
        3 => Command::ReadParameters,
        4 => Command::EngineeringMode(flag_at(six, 1)),
        5 => Command::SetSensitivity {
            gate: gate(flag_at(six, 1), u8_at(six, 2)),
            moving: u8_at(six, 3),
            stationary: u8_at(six, 4),
        },
        6 => Command::ReadFirmware,
        7 => Command::SetBaud(Baud::from_index(u16::from(u8_at(six, 1)))?),
        8 => Command::FactoryReset,
        9 => Command::Restart,
        10 => Command::Bluetooth(flag_at(six, 1)),
        11 => Command::ReadMac,
        _ => return None,
    })
}

// Returns the gate with the index, or all of them.
fn gate(all: bool, index: u8) -> Gate
    ensures meant { result ≡ gate_of all index }
{
    if all { Gate::All } else { Gate::Index(index) }
}

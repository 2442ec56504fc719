// The reader of commands: it finds the command that encodes to the bytes of a frame.
//
// The word and values in a frame leave one command that can encode to it: the reader encodes that, and compares.

#![tactic(auto)]

mod command_frame;

ghost use Rattle.std.specs.Prelude.{◌≡◌};
ghost use Rattle.writer.specs.RoundTrip.{RoundTrip};
ghost use Rattle.command.specs.declared.Command.{Command};
ghost use Rattle.command_reader.specs.Candidate.{gate_for, baud_for, candidate, candidate_in, if_encodes_to};
ghost use Rattle.command_reader.specs.Read.{ReadTo, OneAnswer, ReadCauses, commands};
ghost use Rattle.command_reader.specs.Claims.{NearGates};

use command::{Baud, Command, Gate};
use command_frame::{is_command_frame, number_in};
use refusal::Error;
use wire::{bytes_eq, word};

// Longest frame of a command.
const MAX_COMMAND: usize = 30;

// Where the word, a two-byte value, and the values of the three records begin in a frame.
const WORD: usize = 6;

const NUMBER: usize = 8;

const FIRST: usize = 10;

const SECOND: usize = 16;

const THIRD: usize = 22;

// Returns the gate that a value means: all gates for FFFF, else the gate whose index is the value's lowest byte.
#[tactic(auto, unfolding(crate::specs::Candidate::gate_for))]
fn gate_for(value: u16) -> Gate
    ensures found { result ≡ gate_for value }
{
    if value == 0xFFFF {
        Gate::All
    } else {
        Gate::Index((value % 256) as u8)
    }
}

// Returns the rate for the index, or any rate if the module does not know the index.
#[tactic(auto, unfolding(crate::specs::Candidate::baud_for))]
fn baud_for(index: u16) -> Baud
    ensures found { result ≡ baud_for index }
{
    Baud::from_index(index).unwrap_or(Baud::B9600)
}

// Returns the only command that can have this word, and this number as its value or these values in its records. For a
// word that no command has it returns any command: that one does not encode to the bytes.
#[tactic(auto, unfolding(crate::specs::Candidate::candidate))]
fn candidate(word: u16, number: u16, first: u16, second: u16, third: u16) -> Command
    ensures chosen { result ≡ candidate word number first second third }
{
    match word {
        word::ENABLE_CONFIG => Command::EnableConfig,
        word::SET_MAX_GATES => Command::SetMaxGates {
            moving: (first % 256) as u8,
            stationary: (second % 256) as u8,
            no_one_secs: third,
        },
        word::READ_PARAMETERS => Command::ReadParameters,
        word::ENGINEERING_ON => Command::EngineeringMode(true),
        word::ENGINEERING_OFF => Command::EngineeringMode(false),
        word::SET_SENSITIVITY => Command::SetSensitivity {
            gate: gate_for(first),
            moving: (second % 256) as u8,
            stationary: (third % 256) as u8,
        },
        word::READ_FIRMWARE => Command::ReadFirmware,
        word::SET_BAUD => Command::SetBaud(baud_for(number)),
        word::FACTORY_RESET => Command::FactoryReset,
        word::RESTART => Command::Restart,
        word::BLUETOOTH => Command::Bluetooth(number == 1),
        word::READ_MAC => Command::ReadMac,
        _ => Command::EndConfig,
    }
}

// Returns the only command that can encode to the bytes. It looks only at the word and the two lowest bytes of each
// value.
#[tactic(auto, unfolding(crate::specs::Candidate::candidate_in))]
fn candidate_in(bytes: &[u8]) -> Command
    ensures chosen { result ≡ candidate_in bytes.now }
{
    let number = number_in(bytes, NUMBER);
    let first = number_in(bytes, FIRST);
    let second = number_in(bytes, SECOND);
    let third = number_in(bytes, THIRD);
    candidate(number_in(bytes, WORD), number, first, second, third)
}

// Returns the command if it encodes to the bytes; else refuses with 5.
fn if_encodes_to(command: Command, bytes: &[u8]) -> Result<Command, Error>
    ensures read { result ≡ if_encodes_to bytes.now command }
{
    // An array with what `encode` says of it: the link has no heap.
    let mut frame = [0; MAX_COMMAND];
    let Ok(n) = command.encode(&mut frame) else {
        return Err(Error::UnknownCommand);
    };
    if bytes_eq(&frame[..n], bytes) {
        Ok(command)
    } else {
        Err(Error::UnknownCommand)
    }
}

// Reads a command's frame, and returns the command that encodes to the bytes. Refuses with 1 what is not one whole
// command frame with a word whose ACK bit is clear, then with 5 such a frame to which no command encodes. What
// `Command::encode` writes is read as the command, and what is read is written again as the same bytes.
pub fn read_command(bytes: &[u8]) -> Result<Command, Error>
    ensures read { ReadTo bytes.now result }
    ensures alone { OneAnswer bytes.now }
    ensures causes { ReadCauses bytes.now result }
    ensures round { (c : Command) → RoundTrip commands c }
    ensures near { NearGates bytes.now result }
{
    if !is_command_frame(bytes) {
        return Err(Error::InvalidFormat);
    }
    if_encodes_to(candidate_in(bytes), bytes)
}

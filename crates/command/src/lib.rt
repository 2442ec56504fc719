// Commands to the module: their words, values and frames, and the encoder.
//
// `Command::encodable` alone says which values the module takes: the encoder refuses any other.

#![tactic(auto)]

mod setting;

ghost use Rattle.std.specs.Prelude.{◌≡◌, false, length};
ghost use Rattle.writer.specs.Written.{write_result, buffer_after, WriteCauses};
ghost use Rattle.cursor.specs.CommandFrame.{size_with};
ghost use Rattle.command.specs.Command.{word_of, value_of, command_frame, encodable, unsupported};
ghost use Rattle.command.specs.Claims.{FarthestGates, Sensitivities};

use cursor::{Value, put_value};
use refusal::Error;
pub use setting::{Baud, Gate};
use setting::{are_sensitivities, may_be_farthest};
use wire::word;

// A command to the module. Every one but `EnableConfig` is sent between `EnableConfig` and `EndConfig`.
#[derive(Clone, Copy)]
pub enum Command {
    // Enter configuration mode.
    EnableConfig,
    // Leave configuration mode and resume reporting.
    EndConfig,
    // Farthest moving and stationary gates, 2 to 8, and how many seconds a target stays reported after it leaves.
    SetMaxGates {
        moving: u8,
        stationary: u8,
        no_one_secs: u16,
    },
    ReadParameters,
    // On or off: the energies of each gate in every report.
    EngineeringMode(bool),
    // Sensitivity of one gate or of all; 100 disables a gate.
    SetSensitivity {
        gate: Gate,
        moving: u8,
        stationary: u8,
    },
    ReadFirmware,
    SetBaud(Baud),
    FactoryReset,
    Restart,
    // On or off; takes effect after a restart.
    Bluetooth(bool),
    ReadMac,
}

impl Command {
    // Returns the command word.
    pub fn word(self) -> u16
        ensures worded { result ≡ word_of self }
    {
        match self {
            Command::EnableConfig => word::ENABLE_CONFIG,
            Command::EndConfig => word::END_CONFIG,
            Command::SetMaxGates { .. } => word::SET_MAX_GATES,
            Command::ReadParameters => word::READ_PARAMETERS,
            Command::EngineeringMode(true) => word::ENGINEERING_ON,
            Command::EngineeringMode(false) => word::ENGINEERING_OFF,
            Command::SetSensitivity { .. } => word::SET_SENSITIVITY,
            Command::ReadFirmware => word::READ_FIRMWARE,
            Command::SetBaud(_) => word::SET_BAUD,
            Command::FactoryReset => word::FACTORY_RESET,
            Command::Restart => word::RESTART,
            Command::Bluetooth(_) => word::BLUETOOTH,
            Command::ReadMac => word::READ_MAC,
        }
    }

    // Returns the value that follows the word.
    fn value(self) -> Value
        ensures carried { result ≡ value_of self }
    {
        match self {
            Command::EnableConfig | Command::ReadMac => Value::Number(0x0001),
            Command::SetMaxGates {
                moving,
                stationary,
                no_one_secs,
            } => { Value::Records(moving as u32, stationary as u32, no_one_secs as u32) }
            Command::SetSensitivity {
                gate,
                moving,
                stationary,
            } => { Value::Records(gate.value(), moving as u32, stationary as u32) }
            Command::SetBaud(baud) => Value::Number(baud.index()),
            Command::Bluetooth(on) => Value::Number(u16::from(on)),
            Command::EndConfig
            | Command::ReadParameters
            | Command::EngineeringMode(_)
            | Command::ReadFirmware
            | Command::FactoryReset
            | Command::Restart => Value::None,
        }
    }

    // Returns the size of the encoded frame, header to tail: 12 bytes without a value, 14 with a two-byte value, 30
    // with three records.
    #[tactic(auto, using(cursor::proofs::CommandFrame::frame_size))]
    pub fn encoded_len(self) -> usize
        ensures counted { result ≡ length (command_frame self) }
        ensures sized { result ≡ size_with (value_of self) }
    {
        self.value().framed_len()
    }

    // Tests whether the module takes the command's values.
    fn encodable(self) -> bool
        ensures tested { result ≡ encodable self }
    {
        match self {
            Command::SetMaxGates {
                moving,
                stationary,
                ..
            } => { may_be_farthest(moving) && may_be_farthest(stationary) }
            Command::SetSensitivity {
                gate,
                moving,
                stationary,
            } => { gate.known() && are_sensitivities(moving, stationary) }
            _ => true,
        }
    }

    // Encodes the frame into the front of `out`, and returns the number of bytes written. Refuses with 2 a value that
    // the module does not take, then with 4 a buffer shorter than the frame. Bytes after the frame stay, and a refused
    // call changes none.
    pub fn encode(self, out: &mut [u8]) -> Result<usize, Error>
        ensures told { result ≡ write_result (unsupported self) (command_frame self) (length out.old) }
        ensures left { out.new ≡ buffer_after (unsupported self) (command_frame self)
            out.old }
        ensures causes { WriteCauses 2 (encodable self ≡ false) (command_frame self)
            (length out.old) result }
        ensures farthest { FarthestGates self result }
        ensures sensitivities { Sensitivities self result }
    {
        if !self.encodable() {
            return Err(Error::Unsupported);
        }
        put_value(out, self.word(), self.value())
    }
}

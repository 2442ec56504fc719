// The reply with the parameters: reading it, and its accessors.
ghost use Rattle.std.specs.Prelude.{◌≡◌};
ghost use Rattle.wire.specs.Gate.{gate_values};
ghost use Rattle.reply.specs.Reply.{reply_as};
ghost use Rattle.reply.specs.Parameters.{parameters_reply, valid_gates};

use crate::parameters_head::ParametersHead;
use refusal::Error;
use wire::{GATES, GateValues, gate_array, gate_values, le16};

// Where the moving sensitivities start in a parameters payload.
const MOVING_AT: usize = 4;

// The reply to the command `READ_PARAMETERS`. Its fields are document 01's, so the arrays have their count beside them.
#[derive(Clone, Copy)]
pub struct Parameters {
    // The highest gate that the module has.
    pub max_gate: u8,
    // The configured farthest gates.
    pub max_moving_gate: u8,
    pub max_stationary_gate: u8,
    // Sensitivities by gate, gate 0 first; the first `gates()` are valid.
    pub moving_sensitivity: [u8; GATES],
    pub stationary_sensitivity: [u8; GATES],
    // How long the module waits, without a target, before it reports that no one is there.
    pub no_one_secs: u16,
}

impl Parameters {
    // Returns the number of gates: `max_gate` plus one, at most `GATES` whatever the field holds.
    pub fn gates(self) -> usize
        ensures counted { result ≡ valid_gates self }
    {
        (self.max_gate as usize + 1).min(GATES)
    }

    // Returns the valid moving sensitivities, gate 0 first.
    pub fn moving(self) -> GateValues
        ensures given { result ≡ gate_values self.moving_sensitivity (valid_gates self) }
    {
        gate_values(self.moving_sensitivity, self.gates())
    }

    // Returns the valid stationary sensitivities, gate 0 first.
    pub fn stationary(self) -> GateValues
        ensures given { result ≡ gate_values self.stationary_sensitivity (valid_gates self) }
    {
        gate_values(self.stationary_sensitivity, self.gates())
    }
}

// Reads a payload that answers `READ_PARAMETERS`: if its seconds are present, so are the sensitivities before them.
pub fn read_parameters(payload: &[u8]) -> Result<Parameters, Error>
    ensures read { result ≡ reply_as parameters_reply payload.now }
{
    let Some(head) = ParametersHead::read(payload) else {
        return Err(Error::InvalidFormat);
    };
    let gates = head.max_gate as usize + 1;
    let stationary_at = MOVING_AT + gates;
    let seconds_at = stationary_at + gates;
    let Some(no_one_secs) = le16(payload, seconds_at) else {
        return Err(Error::InvalidFormat);
    };
    Ok(Parameters {
        max_gate: head.max_gate,
        max_moving_gate: head.max_moving_gate,
        max_stationary_gate: head.max_stationary_gate,
        moving_sensitivity: gate_array(&payload[MOVING_AT..stationary_at]),
        stationary_sensitivity: gate_array(&payload[stationary_at..seconds_at]),
        no_one_secs,
    })
}

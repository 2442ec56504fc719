// The head of a parameters payload: a byte that is always AA, then the farthest gates.
ghost use Rattle.std.specs.Prelude.{◌≡◌};
ghost use Rattle.reply.specs.ParametersHead.{head_in};

use wire::GATES;

// The byte that a parameters payload begins with.
const HEAD_BYTE: u8 = 0xAA;

// The farthest gate that the module has, and the configured ones.
#[derive(Clone, Copy)]
pub struct ParametersHead {
    pub max_gate: u8,
    pub max_moving_gate: u8,
    pub max_stationary_gate: u8,
}

impl ParametersHead {
    // Reads the head of a parameters payload. Returns none if a byte is missing, if the first byte is not AA, or if
    // there are more than nine gates.
    pub(crate) fn read(payload: &[u8]) -> Option<ParametersHead>
        ensures read { result ≡ head_in payload.now }
    {
        let &[head, max_gate, max_moving_gate, max_stationary_gate, ..] = payload else {
            return None;
        };
        if head != HEAD_BYTE {
            return None;
        }
        let gates = max_gate as usize + 1;
        if gates > GATES {
            return None;
        }
        Some(ParametersHead {
            max_gate,
            max_moving_gate,
            max_stationary_gate,
        })
    }
}

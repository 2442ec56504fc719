// The engineering block of a report, energies by gate and reserved bytes: reading it, and its accessors.

#![tactic(auto)]

mod gates;

ghost use Rattle.std.specs.Prelude.{◌≡◌};
ghost use Rattle.wire.specs.Gate.{gate_values};
ghost use Rattle.engineering.specs.Block.{extra_count, checked_block, no_engineering, extra_bytes, extra_at};

use gates::Gates;
use refusal::Check;
use wire::{GATES, GateValues, MAX_EXTRA, gate_array, gate_values, zero_padded};

// The largest number that `extra_len` counts.
const EXTRA_LEN_MAX: usize = 255;

// Reserved bytes; the first `count` are valid. Document 01 asks for the array and its valid count.
#[derive(Clone, Copy)]
pub struct ExtraBytes {
    pub bytes: [u8; MAX_EXTRA],
    pub count: usize,
}

// The engineering block of a report: energies by gate, and the first reserved bytes. Its fields are document 01's, so
// the arrays have their counts beside them.
#[derive(Clone, Copy)]
pub struct Engineering {
    // How many gates are reported, `max_moving_gate` and `max_stationary_gate` plus one: as many energies are valid.
    pub moving_gates: u8,
    pub stationary_gates: u8,
    // Energies, gate 0 first; 0 after the valid ones.
    pub moving_energy: [u8; GATES],
    pub stationary_energy: [u8; GATES],
    // The first reserved bytes, and zeros if there are fewer.
    pub extra: [u8; MAX_EXTRA],
    // How many reserved bytes were sent, kept or not; stops at 255.
    pub extra_len: u8,
}

impl Engineering {
    // Returns the valid moving energies, gate 0 first.
    pub fn moving(self) -> GateValues
        ensures given { result ≡ gate_values self.moving_energy self.moving_gates }
    {
        gate_values(self.moving_energy, self.moving_gates as usize)
    }

    // Returns the valid stationary energies, gate 0 first.
    pub fn stationary(self) -> GateValues
        ensures given { result ≡ gate_values self.stationary_energy self.stationary_gates }
    {
        gate_values(self.stationary_energy, self.stationary_gates as usize)
    }

    // Returns the reserved bytes that were kept.
    pub fn extra(self) -> ExtraBytes
        ensures given { result ≡ extra_bytes self }
    {
        let bytes = self.extra;
        ExtraBytes {
            bytes,
            count: (self.extra_len as usize).min(MAX_EXTRA),
        }
    }

    // Returns the light level, on firmware that reports it: reserved byte 0.
    pub fn light(self) -> Option<u8>
        ensures given { result ≡ extra_at self 0 }
    {
        self.extra_at(0)
    }

    // Returns the OUT pin's state, on firmware that reports it: reserved byte 1.
    pub fn out_pin(self) -> Option<u8>
        ensures given { result ≡ extra_at self 1 }
    {
        self.extra_at(1)
    }

    // Returns reserved byte `i`, or `None` if it was not sent or not kept.
    #[tactic(auto, unfolding(crate::specs::Block::extra_at))]
    fn extra_at(self, i: usize) -> Option<u8>
        ensures given { result ≡ extra_at self i }
    {
        let kept = self.extra();
        kept.bytes[..kept.count].get(i).copied()
    }
}

// Reads the bytes after the basic ones: two gate counts, the energies of each, then reserved bytes (check R8).
#[tactic(auto, unfolding(crate::specs::Block::engineering_of, crate::specs::Gates::gates_fit))]
pub fn read_block(block: &[u8]) -> Result<Engineering, Check>
    ensures checked { result ≡ checked_block block.now }
{
    let Some(gates) = Gates::read(block) else {
        return Err(Check::R8);
    };
    let moving_end = 2 + gates.moving as usize;
    let stationary_end = moving_end + gates.stationary as usize;
    let reserved = &block[stationary_end..];
    Ok(Engineering {
        moving_gates: gates.moving,
        stationary_gates: gates.stationary,
        moving_energy: gate_array(&block[2..moving_end]),
        stationary_energy: gate_array(&block[moving_end..stationary_end]),
        extra: zero_padded(reserved),
        extra_len: extra_count(reserved),
    })
}

// Returns an engineering block whose fields are all 0.
pub fn no_engineering() -> Engineering
    ensures zero { result ≡ no_engineering }
{
    Engineering {
        moving_gates: 0,
        stationary_gates: 0,
        moving_energy: [0; GATES],
        stationary_energy: [0; GATES],
        extra: [0; MAX_EXTRA],
        extra_len: 0,
    }
}

// Counts the reserved bytes, up to 255.
fn extra_count(reserved: &[u8]) -> u8
    ensures counted { result ≡ extra_count reserved.now }
{
    reserved.len().min(EXTRA_LEN_MAX) as u8
}

// One target, and its eight bytes.
ghost use Rattle.std.specs.Prelude.{◌≡◌, true, ◌+◌, ◌≤◌, length};
ghost use Rattle.ld2450.specs.Target.{field_at, target_of};
ghost use Rattle.ld2450.specs.Bytes.{target_bytes, writable};

use crate::TARGET_LEN;
use crate::signed::{raw_of, sayable, signed};
use wire::bytes_eq;

// A target; if it is absent, every field is 0.
#[derive(Clone, Copy, PartialEq, Eq, Default)]
pub struct Target {
    // A flag beside the fields, and no `Option`: the writer is given absent targets with a field that is not 0, and
    // refuses them with 6 (clause `causes` of `write_targets`).
    pub present: bool,
    // Its position, in millimetres.
    pub x: i16,
    pub y: i16,
    // Its speed, in centimetres a second.
    pub speed: i16,
    // The resolution, in millimetres.
    pub resolution: u16,
}

// Reads the two-byte number at a place.
fn field(bytes: &[u8], at: usize) -> u16
    requires inside { at + 2 ≤ length bytes.now }
    ensures read { result ≡ field_at bytes.now at }
{
    u16::from_le_bytes([bytes[at], bytes[at + 1]])
}

// Reads the target from its eight bytes.
#[tactic(auto, using(crate::proofs::TargetBytes::back), unfolding(crate::specs::Target::target_of))]
pub(crate) fn target_of(bytes: &[u8]) -> Target
    requires whole { length bytes.now ≡ 8 }
    ensures read { result ≡ target_of bytes.now }
{
    if bytes_eq(bytes, &[0; TARGET_LEN]) {
        return Target::default();
    }
    Target {
        present: true,
        x: signed(field(bytes, 0)),
        y: signed(field(bytes, 2)),
        speed: signed(field(bytes, 4)),
        resolution: field(bytes, 6),
    }
}

// Tests whether the reader can give the target: a present one without -32,768, an absent one with every field 0.
#[tactic(auto, unfolding(crate::specs::Bytes::writable))]
pub(crate) fn writable(t: Target) -> bool
    ensures tested { result ≡ writable t }
{
    if t.present {
        sayable(t.x) && sayable(t.y) && sayable(t.speed)
    } else {
        t == Target::default()
    }
}

// Returns the target's eight bytes.
#[tactic(auto, unfolding(crate::specs::Bytes::target_bytes, crate::specs::Bytes::writable))]
pub(crate) fn target_bytes(t: Target) -> [u8; TARGET_LEN]
    requires can { writable t ≡ true }
    ensures little { result ≡ target_bytes t }
{
    if !t.present {
        return [0; TARGET_LEN];
    }
    let x = raw_of(t.x).to_le_bytes();
    let y = raw_of(t.y).to_le_bytes();
    let speed = raw_of(t.speed).to_le_bytes();
    let resolution = t.resolution.to_le_bytes();
    [
        x[0],
        x[1],
        y[0],
        y[1],
        speed[0],
        speed[1],
        resolution[0],
        resolution[1],
    ]
}

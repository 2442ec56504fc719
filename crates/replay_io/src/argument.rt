// The fields of an argument: the little-endian number at a place. An op tests its argument's length before it reads
// them; a missing byte reads as 0.
ghost use Rattle.std.specs.Prelude.{◌≡◌, drop};
ghost use Rattle.replay_io.specs.Argument.{field_at, flag_at};

use wire::{byte_at, le16, le32};

// Reads the byte at a place.
#[tactic(auto, unfolding(crate::specs::Argument::field_at))]
pub fn u8_at(argument: &[u8], at: usize) -> u8
    ensures read { result ≡ field_at 1 argument.now at }
{
    byte_at(argument, at).unwrap_or(0)
}

// Reads a truth value: any number but 0 counts as 1.
pub fn flag_at(argument: &[u8], at: usize) -> bool
    ensures read { result ≡ flag_at argument.now at }
{
    u8_at(argument, at) > 0
}

// Reads the number in two bytes.
#[tactic(auto, unfolding(crate::specs::Argument::field_at))]
pub fn u16_at(argument: &[u8], at: usize) -> u16
    ensures read { result ≡ field_at 2 argument.now at }
{
    le16(argument, at).unwrap_or(0)
}

// Reads the number in four bytes.
#[tactic(auto, unfolding(crate::specs::Argument::field_at))]
pub fn u32_at(argument: &[u8], at: usize) -> u32
    ensures read { result ≡ field_at 4 argument.now at }
{
    le32(argument, at).unwrap_or(0)
}

// Returns the bytes from a place on; none if the argument is not as long.
pub fn rest(argument: &[u8], at: usize) -> &[u8]
    ensures left { result.now ≡ drop at argument.now }
{
    let start = at.min(argument.len());
    &argument[start..]
}

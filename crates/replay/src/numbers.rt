// Numbers of eight bytes in an argument, little-endian; a missing half reads as 0. Each takes the argument and a place,
// as replay_io's do: a struct of them would be made for one call.
ghost use Rattle.std.specs.Prelude.{◌<◌};

use replay_io::argument::u32_at;

pub fn u64_at(argument: &[u8], at: usize) -> u64
    requires inside { at < 70000 }
{
    u32_at(argument, at) as u64 + 4_294_967_296 * (u32_at(argument, at + 4) as u64)
}

pub fn usize_at(argument: &[u8], at: usize) -> usize
    requires inside { at < 70000 }
{
    u64_at(argument, at) as usize
}

// The load of a seed: bytes to test a link with, which anyone who has the seed can make again.

#![tactic(auto)]

mod draws;
mod pieces;

ghost use Rattle.std.specs.Prelude.{◌≡◌, length};
ghost use Rattle.writer.specs.Written.{written};
ghost use Rattle.load_writer.specs.Load.{laid_down};
ghost use Rattle.load_writer.specs.Answer.{load_number, load_result, load_buffer, LoadCauses};
ghost use Rattle.load_writer.specs.Claims.{Filled, StopsOnce, Prefix, LoadExamples};
ghost use Rattle.load_writer.specs.Counts.{Counted};

use draws::Draws;
use pieces::put_piece;

// The most bytes of a load.
pub const MAX_LOAD: usize = 65_536;

// The refusal of `write_load`.
#[derive(Clone, Copy, PartialEq, Eq)]
pub enum LoadError {
    // 9: the seed is zero.
    SeedZero,
}

impl LoadError {
    // Returns the refusal's number.
    pub fn number(self) -> u8
        ensures numbered { result ≡ load_number self }
    {
        match self {
            LoadError::SeedZero => 9,
        }
    }
}

// Lays down the pieces after the seed, up to the first that would pass the buffer's end, and returns the filled length.
fn fill(out: &mut [u8], seed: u32) -> usize
    ensures count { result ≡ length (laid_down seed (length out.old)) }
    ensures left { out.new ≡ written out.old (laid_down seed (length out.old)) }
{
    let mut draws = Draws::new(seed);
    // A place is what the last put answered, not a count, so neither a `for` nor a chain is plainer.
    let mut at = 0;
    while let Some(end) = put_piece(out, at, &mut draws) {
        at = end;
    }
    at
}

// Writes the load of a seed into the front of `out`, at most 65,536 bytes, and returns the filled length. Bytes after
// the load stay. Refuses the seed zero with 9, before all else; a refused call changes no byte.
pub fn write_load(out: &mut [u8], seed: u32) -> Result<usize, LoadError>
    ensures answered { result ≡ load_result seed (length out.old) }
    ensures left { out.new ≡ load_buffer seed out.old }
    ensures causes { LoadCauses seed (length out.old) result }
    ensures filled { Filled seed out.old result out.new }
    ensures pieces { StopsOnce seed (length out.old) }
    ensures prefix { Prefix seed }
    ensures counted { Counted seed }
    ensures examples { LoadExamples }
{
    if seed == 0 {
        return Err(LoadError::SeedZero);
    }
    let room = out.len().min(MAX_LOAD);
    Ok(fill(&mut out[..room], seed))
}

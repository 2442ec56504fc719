// The lengths that the stream takes: a frame in a stream holds 2 to 54 data bytes.
ghost use Rattle.std.specs.Prelude.{◌≡◌};
ghost use Rattle.stream.specs.Length.{link_limit, in_range};

use wire::MAX_DATA;

// The smallest length that the parser takes: a bare command word.
const MIN_DATA: usize = 2;

// Tests whether the parser takes this length.
pub fn in_range(len: usize) -> bool
    ensures told { result ≡ in_range link_limit len }
{
    MIN_DATA <= len && len <= MAX_DATA
}

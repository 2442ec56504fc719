// The ways to disturb the input at a place. Each has up to 256 disturbances there, by their numbers.
ghost use Rattle.std.specs.Prelude.{◌≤◌};

use crate::noise::Noise;
use counting::feed_all;
use ld2410::Parser;

// A way: the byte at the place is changed to each other byte, or dropped; or each byte, or each run of noise, is put in
// before it.
#[derive(Clone, Copy)]
pub enum Way {
    Changed,
    Dropped,
    Inserted,
    Noise,
}

impl Way {
    // Feeds the parser what the disturbance with this number puts in where the place has this byte. Returns no parser
    // if the way has no such disturbance there.
    pub fn disturbed(self, number: u8, byte: u8, parser: Parser) -> Option<Parser> {
        match self {
            Way::Changed if number == byte => None,
            Way::Changed | Way::Inserted => Some(parser.fed(number).parser),
            Way::Dropped => (number == 0).then_some(parser),
            Way::Noise => {
                let noise = Noise::ALL.get(usize::from(number))?;
                Some(feed_all(parser, &noise.run()))
            }
        }
    }

    // Returns how many bytes of the input are left out at the place.
    pub fn left_out(self) -> usize
        ensures few { result ≤ 1 }
    {
        match self {
            Way::Changed | Way::Dropped => 1,
            Way::Inserted | Way::Noise => 0,
        }
    }
}

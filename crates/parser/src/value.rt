// The parser by value: taken, fed or reset, and handed back. Each call lends a local to the same call on a lent parser,
// so that its own caller lends nothing.
ghost use Rattle.std.specs.Prelude.{◌≡◌, []};
ghost use Rattle.stream.specs.Length.{link_limit};
ghost use Rattle.parser.specs.Feed.{feed_of, feed_slice_of, reset_of};
ghost use Rattle.parser.specs.Claims.{FromHere, FromAny, Determined, ResetFirst};

use super::{Fed, Parser};
use feed::{Branches, Engine, Taken};
use frame::Frame;

impl Parser {
    // Feeds one byte by the engine `E`.
    pub(crate) fn fed_with<E: Engine>(self, byte: u8) -> Fed<Option<Frame>>
        ensures fed { result ≡ feed_of link_limit self byte }
        ensures any { FromAny self }
    {
        let mut lent = self;
        let answer = lent.feed_with::<E>(byte);
        Fed {
            parser: lent,
            answer,
        }
    }

    // Feeds a slice by the engine `E`.
    pub(crate) fn fed_slice_with<E: Engine>(self, bytes: &[u8]) -> Fed<Taken>
        ensures fed { result ≡ feed_slice_of link_limit self bytes.now }
        ensures any { FromAny self }
    {
        let mut lent = self;
        let answer = lent.feed_slice_with::<E>(bytes);
        Fed {
            parser: lent,
            answer,
        }
    }

    // Feeds one received byte. The answer is the frame that this byte completed, or no frame. A parser with a field out
    // of range is handled as if reset came first.
    pub fn fed(self, byte: u8) -> Fed<Option<Frame>>
        ensures fed { result ≡ feed_of link_limit self byte }
        ensures any { FromAny self }
    {
        self.fed_with::<Branches>(byte)
    }

    // Feeds bytes up to and including the end of the first whole frame, decoded or not, else all of them. The answer is
    // how many, and the frame. Call again with the rest.
    pub fn fed_slice(self, bytes: &[u8]) -> Fed<Taken>
        ensures fed { result ≡ feed_slice_of link_limit self bytes.now }
        ensures any { FromAny self }
    {
        self.fed_slice_with::<Branches>(bytes)
    }

    // Forgets a frame in progress and looks for a header again. The counters are kept. Whatever parser it is given,
    // every list of calls on what it returns fulfils demand 3. Feeding a parser with a field out of range gives the
    // same as feeding what this returns.
    pub fn cleared(self) -> Self
        ensures reset { result ≡ reset_of self }
        ensures fulfilled { FromHere result }
        ensures determined { Determined [] result }
        ensures first { ResetFirst self result }
    {
        let mut lent = self;
        lent.reset();
        lent
    }
}

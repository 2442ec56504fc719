// The feeds by the table engine, lent and by value. They give the first engine's answers and leave its parsers, so that
// calls of both engines may follow each other on one parser. Each call makes the two tables, so a slice costs less than
// its bytes one by one. A new parser, the reset, the counters and the unfinished length are the same for both.
ghost use Rattle.std.specs.Prelude.{◌≡◌};
ghost use Rattle.stream.specs.Length.{link_limit};
ghost use Rattle.parser.specs.Feed.{feed_of, feed_slice_of};
ghost use Rattle.parser.specs.Claims.{FromAny};

use super::{Fed, Parser};
use feed::{Tables, Taken};
use frame::Frame;

impl Parser {
    // Feeds as `feed` does, by the table engine.
    pub fn table_feed(&mut self, byte: u8) -> Option<Frame>
        ensures fed { (result ≡ (feed_of link_limit self.old byte).answer)
            × (self.new ≡ (feed_of link_limit self.old byte).parser) }
        ensures any { FromAny self.old }
    {
        self.feed_with::<Tables>(byte)
    }

    // Feeds as `feed_slice` does, by the table engine.
    pub fn table_feed_slice(&mut self, bytes: &[u8]) -> Taken
        ensures fed { (result ≡ (feed_slice_of link_limit self.old bytes.now).answer)
            × (self.new ≡ (feed_slice_of link_limit self.old bytes.now).parser) }
        ensures any { FromAny self.old }
    {
        self.feed_slice_with::<Tables>(bytes)
    }

    // Feeds as `fed` does, by the table engine.
    pub fn table_fed(self, byte: u8) -> Fed<Option<Frame>>
        ensures fed { result ≡ feed_of link_limit self byte }
        ensures any { FromAny self }
    {
        self.fed_with::<Tables>(byte)
    }

    // Feeds as `fed_slice` does, by the table engine.
    pub fn table_fed_slice(self, bytes: &[u8]) -> Fed<Taken>
        ensures fed { result ≡ feed_slice_of link_limit self bytes.now }
        ensures any { FromAny self }
    {
        self.fed_slice_with::<Tables>(bytes)
    }
}

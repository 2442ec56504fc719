// The feeds and the reset of a parser that is lent: it changes in place.
ghost use Rattle.std.specs.Prelude.{◌≡◌, []};
ghost use Rattle.stream.specs.Length.{link_limit};
ghost use Rattle.parser.specs.Feed.{feed_of, feed_slice_of, reset_of};
ghost use Rattle.parser.specs.Claims.{FromHere, FromAny, Determined, ResetFirst};

use super::Parser;
use feed::{Branches, Engine, Taken, feed_by, feed_slice_by};
use frame::Frame;
use scan::{Stats, hunting};

impl Parser {
    // Feeds one byte by the engine `E`. The next function calls another feed and gives another answer: a closure for
    // either would be no plainer.
    #[tactic(auto, unfolding(crate::specs::Feed::feed_of))]
    pub(crate) fn feed_with<E: Engine>(&mut self, byte: u8) -> Option<Frame>
        ensures fed { (result ≡ (feed_of link_limit self.old byte).answer)
            × (self.new ≡ (feed_of link_limit self.old byte).parser) }
        ensures any { FromAny self.old }
    {
        // Read, so that the proof knows that each counter fits its type.
        let Stats {
            frames,
            resyncs,
            dropped,
            malformed,
        } = self.stats;
        let moved = feed_by::<E>(&mut self.buf, self.scan, self.stats, byte);
        self.scan = moved.scan;
        self.stats = moved.stats;
        moved.answer
    }

    // Feeds a slice by the engine `E`.
    #[tactic(auto, unfolding(crate::specs::Feed::feed_slice_of))]
    pub(crate) fn feed_slice_with<E: Engine>(&mut self, bytes: &[u8]) -> Taken
        ensures fed { (result ≡ (feed_slice_of link_limit self.old bytes.now).answer)
            × (self.new ≡ (feed_slice_of link_limit self.old bytes.now).parser) }
        ensures any { FromAny self.old }
    {
        // Read, so that the proof knows that each counter fits its type.
        let Stats {
            frames,
            resyncs,
            dropped,
            malformed,
        } = self.stats;
        let run = feed_slice_by::<E>(&mut self.buf, self.scan, self.stats, bytes);
        self.scan = run.scan;
        self.stats = run.stats;
        run.answer
    }

    // Feeds as `fed` does, on a parser that is lent: it stays in place, and nothing of its buffer is copied.
    pub fn feed(&mut self, byte: u8) -> Option<Frame>
        ensures fed { (result ≡ (feed_of link_limit self.old byte).answer)
            × (self.new ≡ (feed_of link_limit self.old byte).parser) }
        ensures any { FromAny self.old }
    {
        self.feed_with::<Branches>(byte)
    }

    // Feeds as `fed_slice` does, on a parser that is lent.
    pub fn feed_slice(&mut self, bytes: &[u8]) -> Taken
        ensures fed { (result ≡ (feed_slice_of link_limit self.old bytes.now).answer)
            × (self.new ≡ (feed_slice_of link_limit self.old bytes.now).parser) }
        ensures any { FromAny self.old }
    {
        self.feed_slice_with::<Branches>(bytes)
    }

    // Resets as `cleared` does, on a parser that is lent.
    pub fn reset(&mut self)
        ensures reset { self.new ≡ reset_of self.old }
        ensures fulfilled { FromHere self.new }
        ensures determined { Determined [] self.new }
        ensures first { ResetFirst self.old self.new }
    {
        // Read, so that the proof knows that each counter fits its type.
        let Stats {
            frames,
            resyncs,
            dropped,
            malformed,
        } = self.stats;
        self.scan = hunting();
    }
}

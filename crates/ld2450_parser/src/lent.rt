// The feeds and the reset of a parser that is lent: it changes in place.
ghost use Rattle.std.specs.Prelude.{◌≡◌, []};
ghost use Rattle.ld2450_parser.specs.Feed.{feed_of, feed_slice_of, reset_of};
ghost use Rattle.ld2450_parser.specs.Claims.{FromHere, FromAny, Determined, ResetFirst};

use super::{Parser, Stats, Taken};
use crate::steps::{HUNTING, Progress};
use ld2450::{TARGETS, Target};

impl Parser {
    // Feeds as `fed` does, on a parser that is lent: it stays in place, and nothing of its buffer is copied.
    #[tactic(auto, unfolding(crate::specs::Feed::feed_of))]
    pub fn feed(&mut self, byte: u8) -> Option<[Target; TARGETS]>
        ensures fed { (result ≡ (feed_of self.old byte).answer)
            × (self.new ≡ (feed_of self.old byte).parser) }
        ensures any { FromAny self.old }
    {
        // Read, so that the proof knows that each counter fits its type.
        let Stats {
            frames,
            resyncs,
            dropped,
        } = self.stats;
        let mut progress = Progress::of(self.at, self.stats);
        let answer = progress.feed(&mut self.buf, byte);
        self.at = progress.at;
        self.stats = progress.stats;
        answer
    }

    // Feeds as `fed_slice` does, on a parser that is lent.
    #[tactic(auto, unfolding(crate::specs::Feed::feed_slice_of))]
    pub fn feed_slice(&mut self, bytes: &[u8]) -> Taken
        ensures fed { (result ≡ (feed_slice_of self.old bytes.now).answer)
            × (self.new ≡ (feed_slice_of self.old bytes.now).parser) }
        ensures any { FromAny self.old }
    {
        // Read, so that the proof knows that each counter fits its type.
        let Stats {
            frames,
            resyncs,
            dropped,
        } = self.stats;
        let mut progress = Progress::of(self.at, self.stats);
        let answer = progress.feed_slice(&mut self.buf, bytes);
        self.at = progress.at;
        self.stats = progress.stats;
        answer
    }

    // Resets as `cleared` does, on a parser that is lent.
    pub fn reset(&mut self)
        ensures reset { self.new ≡ reset_of self.old }
        ensures fulfilled { FromHere self.new }
        ensures determined { Determined [] self.new }
        ensures first { ResetFirst self.old self.new }
    {
        // Read, so that the proof knows that each counter fits its type.
        let Stats {
            frames,
            resyncs,
            dropped,
        } = self.stats;
        self.at = HUNTING;
    }
}

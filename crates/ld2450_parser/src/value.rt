// The parser by value: taken, fed or reset, and handed back. A feed lends a local buffer, and keeps the place and the
// counters out of memory, which a whole parser that is lent and copied back does not.
ghost use Rattle.std.specs.Prelude.{◌≡◌, []};
ghost use Rattle.ld2450_parser.specs.Feed.{feed_of, feed_slice_of, reset_of};
ghost use Rattle.ld2450_parser.specs.Claims.{FromHere, FromAny, Determined, ResetFirst};

use super::{Fed, Parser, Taken};
use crate::steps::Progress;
use ld2450::{TARGETS, Target};

impl Parser {
    // Feeds one received byte. The answer is the targets of the frame that this byte completed, or none. A parser with
    // `at` above 29 is handled as if reset came first.
    #[tactic(auto, unfolding(crate::specs::Feed::feed_of))]
    pub fn fed(self, byte: u8) -> Fed<Option<[Target; TARGETS]>>
        ensures fed { result ≡ feed_of self byte }
        ensures any { FromAny self }
    {
        let mut buf = self.buf;
        let mut progress = Progress::of(self.at, self.stats);
        let answer = progress.feed(&mut buf, byte);
        Fed {
            parser: Parser {
                buf,
                at: progress.at,
                stats: progress.stats,
            },
            answer,
        }
    }

    // Feeds bytes up to and including the end of the first whole frame, else all of them. The answer is how many, and
    // the frame's targets. Call again with the rest.
    #[tactic(auto, unfolding(crate::specs::Feed::feed_slice_of))]
    pub fn fed_slice(self, bytes: &[u8]) -> Fed<Taken>
        ensures fed { result ≡ feed_slice_of self bytes.now }
        ensures any { FromAny self }
    {
        let mut buf = self.buf;
        let mut progress = Progress::of(self.at, self.stats);
        let answer = progress.feed_slice(&mut buf, bytes);
        Fed {
            parser: Parser {
                buf,
                at: progress.at,
                stats: progress.stats,
            },
            answer,
        }
    }

    // Forgets a frame in progress and looks for a header again. The counters are kept. Whatever it is given, every list
    // of calls on what it returns fulfils demand 3. Feeding a parser out of range is feeding what this returns.
    pub fn cleared(self) -> Self
        ensures reset { result ≡ reset_of self }
        ensures fulfilled { FromHere result }
        ensures determined { Determined [] result }
        ensures first { ResetFirst self result }
    {
        let mut lent = self;
        lent.reset();
        lent
    }
}

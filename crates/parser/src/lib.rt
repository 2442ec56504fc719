// The streaming parser of the LD2410's link: a stretch of bytes in, frames and counters out.
//
// The Rust's flat private fields are here in three parts: the buffer, the scan (where in a frame the parser is) and the
// counters. So a byte moves a few numbers, and the buffer stays in place.

#![tactic(auto)]

use scan::{Scan, Stats, hunting, unfinished};
use wire::MAX_FRAME;

mod both;
mod lent;
mod table;
mod value;

ghost use Rattle.std.specs.Prelude.{◌≡◌, []};
ghost use Rattle.stream.specs.Length.{link_limit};
ghost use Rattle.parser.specs.Feed.{fresh, unfinished_of};
ghost use Rattle.parser.specs.Claims.{FromHere, Accounted, Determined, TooSoon};

// A streaming parser. The buffer begins with the data bytes of the frame in progress, or of the frame that just ended.
// It is an array and no `Vec`, since the link has no heap. The LD2450's parser has other fields and counters, and its
// crate does not list this one.
#[derive(Clone, Copy)]
pub struct Parser {
    pub buf: [u8; MAX_FRAME],
    pub scan: Scan,
    pub stats: Stats,
}

// A parser handed back, with the answer: that of a byte, or of a slice.
#[derive(Clone, Copy)]
pub struct Fed<A> {
    pub parser: Parser,
    pub answer: A,
}

impl Parser {
    // Makes a parser that looks for a header, with a buffer of zeros and every counter 0. From it every list of calls
    // fulfils demand 3 (specs/Claims.antt).
    pub fn new() -> Self
        ensures made { result ≡ fresh }
        ensures fulfilled { FromHere result }
        ensures accounted { Accounted result }
        ensures determined { Determined [] result }
        ensures too_soon { TooSoon result }
    {
        Parser {
            buf: [0; MAX_FRAME],
            scan: hunting(),
            stats: Stats {
                frames: 0,
                resyncs: 0,
                dropped: 0,
                malformed: 0,
            },
        }
    }

    // Returns the counters so far.
    pub fn stats(self) -> Stats
        ensures told { result ≡ self.stats }
    {
        self.stats
    }

    // Returns the length of the frame in progress.
    #[tactic(auto, unfolding(crate::specs::Feed::unfinished_of))]
    pub fn unfinished(self) -> usize
        ensures told { result ≡ unfinished_of link_limit self }
    {
        unfinished(self.scan)
    }
}

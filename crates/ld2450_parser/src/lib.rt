// The streaming parser of the LD2450: a stretch of bytes in, targets and counters out. The crate also passes on what a
// user names of its frames, and so is the module's front door.

#![tactic(auto)]

pub use ld2450::{
    Error, FRAME_LEN, HELD_LEN, TARGETS, Target, read_targets, refusal_number, write_targets,
};

mod lent;
mod steps;
mod value;

ghost use Rattle.std.specs.Prelude.{◌≡◌, []};
ghost use Rattle.ld2450_parser.specs.Feed.{fresh, unfinished_of};
ghost use Rattle.ld2450_parser.specs.Claims.{FromHere, Accounted, Determined, Receives};
ghost use Rattle.ld2450_parser.specs.Pieces.{DeliversWhole, StrayBytes, BrokenFrames, Shown};

use steps::{HUNTING, or_reset};

// The counters: whole frames; broken starts; stray bytes and the bytes of broken starts.
#[derive(Clone, Copy)]
pub struct Stats {
    pub frames: u64,
    pub resyncs: u64,
    pub dropped: u64,
}

// A streaming parser. `at` is how many bytes of a frame are pending, and the buffer has the target bytes among them;
// its other bytes have no meaning. `at` above 29 is out of range, and handled as if reset came first. It is an array
// and no `Vec`, since the link has no heap.
#[derive(Clone, Copy)]
pub struct Parser {
    pub buf: [u8; HELD_LEN],
    pub at: usize,
    pub stats: Stats,
}

// The number of bytes that a slice feed took, and the targets of the frame that they completed, if any.
#[derive(Clone, Copy)]
pub struct Taken {
    pub count: usize,
    pub frame: Option<[Target; TARGETS]>,
}

// A parser handed back, with the answer: that of a byte, or of a slice.
#[derive(Clone, Copy)]
pub struct Fed<A> {
    pub parser: Parser,
    pub answer: A,
}

impl Parser {
    // Makes a parser that looks for a header, with a buffer of zeros and every counter 0. From it every list of calls
    // fulfils demand 3 (specs/Claims.antt).
    pub fn new() -> Self
        ensures made { result ≡ fresh }
        ensures fulfilled { FromHere result }
        ensures accounted { Accounted result }
        ensures determined { Determined [] result }
        ensures received { Receives [] result }
        ensures shown { Shown result }
    {
        Parser {
            buf: [0; HELD_LEN],
            at: HUNTING,
            stats: Stats {
                frames: 0,
                resyncs: 0,
                dropped: 0,
            },
        }
    }

    // Returns the counters so far.
    pub fn stats(self) -> Stats
        ensures told { result ≡ self.stats }
    {
        self.stats
    }

    // Returns the length of the frame in progress.
    #[tactic(auto, unfolding(crate::specs::Feed::unfinished_of))]
    pub fn unfinished(self) -> usize
        ensures told { result ≡ unfinished_of self }
    {
        or_reset(self.at)
    }
}

// Pins what the pieces of the stream are, by claims of specs/Pieces.antt. The function is empty and never called.
fn stream_claims()
    ensures whole { DeliversWhole }
    ensures stray { StrayBytes }
    ensures broken { BrokenFrames }
{}

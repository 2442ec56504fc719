// The step of one byte: it goes on with the frame in progress, or breaks it and is tried as a new start. A run of bytes
// steps them one by one.
ghost use Rattle.std.specs.Prelude.{◌≡◌, length};
ghost use Rattle.ld2450_parser.specs.Feed.{or_reset, due_at, abandoned, started, progress_of};
ghost use Rattle.ld2450_parser.specs.Feed.{step_of, stored, stepped, put, run_of, ran_to};

use super::{Stats, Taken};
use ld2450::{HELD_LEN, TARGETS, Target, read_held};
use wire::bump;

// The `at` of a parser that looks for a header: no byte is pending.
pub(crate) const HUNTING: usize = 0;

// Returns `at`; if it is out of range, 0, as if reset came first.
#[tactic(auto, unfolding(crate::specs::Feed::or_reset))]
pub(crate) fn or_reset(at: usize) -> usize
    ensures or_reset { result ≡ or_reset at }
{
    if at <= 29 { at } else { 0 }
}

// Returns the byte that is due at a place outside the targets; 0 past the last.
#[tactic(auto, unfolding(crate::specs::Feed::due_at))]
fn due(at: usize) -> u8
    ensures due { result ≡ due_at at }
{
    match at {
        0 => 0xAA,
        1 => 0xFF,
        2 => 0x03,
        3 => 0x00,
        4..=28 => 0x55,
        29 => 0xCC,
        _ => 0,
    }
}

impl Stats {
    // Counts a frame in progress that is given up after `at` bytes, if there was one.
    #[tactic(auto, unfolding(crate::specs::Feed::abandoned))]
    fn abandon(&mut self, at: usize)
        ensures counted { self.new ≡ abandoned self.old at }
    {
        if at > 0 {
            self.resyncs = bump(self.resyncs, 1);
            self.dropped = bump(self.dropped, at);
        }
    }
}

// Where a parser is: how many bytes of a frame are pending, and the counters. A byte moves these few numbers, and the
// buffer stays in place.
#[derive(Clone, Copy)]
pub(crate) struct Progress {
    pub at: usize,
    pub stats: Stats,
}

impl Progress {
    // Returns the progress of a parser. A place out of range is reset first.
    pub(crate) fn of(at: usize, stats: Stats) -> Self
        ensures made { result ≡ record { at = or_reset at; stats = stats } }
    {
        Progress {
            at: or_reset(at),
            stats,
        }
    }

    // Treats `byte` as a possible first byte of a frame.
    #[tactic(auto, unfolding(crate::specs::Feed::started))]
    fn start(&mut self, byte: u8)
        ensures started { self.new ≡ progress_of (started self.old.stats byte) }
    {
        if byte == 0xAA {
            self.at = 1;
        } else {
            self.at = HUNTING;
            self.stats.dropped = bump(self.stats.dropped, 1);
        }
    }

    // Takes one byte, with the buffer lent, and returns whether it ended a frame. A byte of a target is stored,
    // whatever it is; where one of the header or the tail is due, another breaks the frame.
    #[tactic(auto, unfolding(crate::specs::Feed::step_of, crate::specs::Feed::stored, crate::specs::Feed::where_due, crate::specs::Feed::started))]
    pub(crate) fn step(&mut self, buf: &mut [u8; HELD_LEN], byte: u8) -> bool
        ensures stepped { let s = step_of self.old.at self.old.stats byte in
            (self.new ≡ progress_of s) × (result ≡ s.ended) }
        ensures stored { buf.new ≡ stored self.old.at buf.old byte }
    {
        match self.at {
            4..28 => buf[self.at - 4] = byte,
            at if byte != due(at) => {
                self.stats.abandon(at);
                self.start(byte);
                return false;
            }
            29.. => {
                self.at = HUNTING;
                self.stats.frames = bump(self.stats.frames, 1);
                return true;
            }
            _ => {}
        }
        self.at += 1;
        false
    }

    // Takes bytes up to and including the first that ends a frame, and returns how many; `None` if none ends one.
    pub(crate) fn run(&mut self, buf: &mut [u8; HELD_LEN], bytes: &[u8]) -> Option<usize>
        ensures ran { run_of (put buf.old self.old.at self.old.stats) bytes.now
            ≡ ran_to (put buf.new self.new.at self.new.stats) (length bytes.now) result }
    {
        for (i, byte) in bytes.iter().enumerate() {
            if self.step(buf, *byte) {
                return Some(i + 1);
            }
        }
        None
    }
    // Feeds one byte into the lent buffer, and returns the targets of the frame that it completed, if any.
    #[tactic(auto, unfolding(crate::specs::Feed::stepped, crate::specs::Feed::answer_if))]
    pub(crate) fn feed(&mut self, buf: &mut [u8; HELD_LEN], byte: u8) -> Option<[Target; TARGETS]>
        ensures fed { stepped (put buf.old self.old.at self.old.stats) byte
            ≡ record { parser = put buf.new self.new.at self.new.stats; answer = result } }
    {
        // No `then`: of what its closure gives nothing was proved.
        if self.step(buf, byte) {
            Some(read_held(buf))
        } else {
            None
        }
    }

    // Feeds bytes into the lent buffer up to and including the end of the first whole frame, else all of them, and
    // returns how many, and that frame's targets.
    pub(crate) fn feed_slice(&mut self, buf: &mut [u8; HELD_LEN], bytes: &[u8]) -> Taken
        ensures fed { run_of (put buf.old self.old.at self.old.stats) bytes.now
            ≡ record { parser = put buf.new self.new.at self.new.stats; answer = result } }
    {
        match self.run(buf, bytes) {
            Some(count) => Taken {
                count,
                frame: Some(read_held(buf)),
            },
            None => Taken {
                count: bytes.len(),
                frame: None,
            },
        }
    }
}

// The parser's counters, and the outcome of a byte or a slice: the scan and the counters after it.
use crate::Scan;
use wire::Kind;

// Parser counters. Each stops at the largest number of 64 bits.
#[derive(Clone, Copy)]
pub struct Stats {
    // Complete, decoded frames delivered.
    pub frames: u64,
    // Times a frame in progress was given up and the search for a header began anew.
    pub resyncs: u64,
    // Bytes discarded: those between frames, and those of frames that were given up.
    pub dropped: u64,
    // Whole frames whose data do not decode.
    pub malformed: u64,
}

// A frame that a byte ended: its kind and the length of its data, which are at the front of the buffer.
#[derive(Clone, Copy)]
pub struct Ended {
    pub kind: Kind,
    pub len: usize,
}

// The scan and the counters after a byte, beside the buffer, and the frame that it ended, if any.
#[derive(Clone, Copy)]
pub struct Stepped {
    pub scan: Scan,
    pub stats: Stats,
    pub ended: Option<Ended>,
}

// The scan and the counters after a slice, beside the buffer, the frame that it ended, if any, and how many of its
// bytes were taken.
#[derive(Clone, Copy)]
pub struct Scanned {
    pub scan: Scan,
    pub stats: Stats,
    pub ended: Option<Ended>,
    pub taken: usize,
}

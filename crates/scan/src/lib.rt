// Where in a frame the stream parser is.
//
// A scan is a few numbers; the data bytes of the frame in progress are in a buffer that the caller lends. A scan with a
// number out of range is handled as if reset came first.

#![tactic(auto)]

mod stats;

ghost use Rattle.std.specs.Prelude.{◌≡◌, true};
ghost use Rattle.stream.specs.Length.{link_limit};
ghost use Rattle.scan.specs.Scan.{hunting, well_formed, or_reset, unfinished_at, unfinished_by};
ghost use Rattle.scan.specs.Stands.{OrReset};

pub use stats::{Ended, Scanned, Stats, Stepped};
use stream::in_range;
use wire::Kind;

// Where in a frame the parser is.
#[derive(Clone, Copy, PartialEq, Eq)]
pub enum State {
    // Matching header bytes; `matched` counts them.
    Header,
    // Collecting the two length bytes; `matched` counts them.
    Len,
    // Collecting `len` data bytes; `pos` counts them.
    Data,
    // Matching tail bytes; `matched` counts them.
    Tail,
}

// The state with its numbers. Those that a state does not use are 0; in the tail `pos` is `len`. The numbers stand
// beside the state, not in it, since any of them is answered (`first` of `or_reset`).
#[derive(Clone, Copy)]
pub struct Scan {
    pub state: State,
    pub kind: Kind,
    pub matched: usize,
    pub len: usize,
    pub pos: usize,
}

impl Scan {
    // Tests whether no field is out of range.
    #[tactic(auto, unfolding(crate::specs::Scan::well_formed))]
    fn well_formed(self) -> bool
        ensures told { result ≡ well_formed link_limit self }
    {
        match self.state {
            State::Header => self.matched <= 3,
            State::Len => self.matched <= 1
                && (self.len <= 255 && (self.matched == 1 || self.len == 0)),
            State::Data => in_range(self.len) && self.pos < self.len,
            State::Tail => self.matched <= 3 && (in_range(self.len) && self.pos == self.len),
        }
    }
}

// Returns a scan that looks for a header.
pub fn hunting() -> Scan
    ensures made { result ≡ hunting }
{
    Scan {
        state: State::Header,
        kind: Kind::Report,
        matched: 0,
        len: 0,
        pos: 0,
    }
}

// Returns the scan; if a field is out of range, the scan that a reset leaves.
#[tactic(auto, using(crate::proofs::OrReset::reset_as), unfolding(crate::specs::Scan::or_reset))]
pub fn or_reset(scan: Scan) -> Scan
    ensures or_reset { result ≡ or_reset link_limit scan }
    ensures first { OrReset link_limit scan result }
{
    if scan.well_formed() { scan } else { hunting() }
}

// Returns how many bytes of a frame are in progress.
#[tactic(auto, using(crate::proofs::Orders::or_reset_formed), unfolding(crate::specs::Scan::unfinished_by))]
pub fn unfinished(scan: Scan) -> usize
    ensures told { result ≡ unfinished_by link_limit scan }
{
    progress(or_reset(scan))
}

// Returns the same for a well-formed scan.
#[tactic(auto, using(crate::proofs::Orders::bounds))]
fn progress(scan: Scan) -> usize
    requires { well_formed link_limit scan ≡ true }
    ensures told { result ≡ unfinished_at scan }
{
    match scan.state {
        State::Header => scan.matched,
        State::Len => 4 + scan.matched,
        State::Data => 6 + scan.pos,
        State::Tail => 6 + scan.len + scan.matched,
    }
}

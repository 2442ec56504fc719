// The two engines: what bytes do to a scan, by branches or by tables, without reading what the frames hold.
ghost use Rattle.std.specs.Prelude.{◌≡◌, true, ◌≤◌, ◌<◌, length};
ghost use Rattle.stream.specs.Length.{link_limit};
ghost use Rattle.scan.specs.Scan.{well_formed, or_reset};
ghost use Rattle.step.specs.Step.{step_header, step_tail, step_of, stored};
ghost use Rattle.step.specs.Slice.{run_of};
ghost use Rattle.step.specs.Phase.{PartialRun};

use crate::body::{step_data, step_len, store, taking};
use scan::{Scan, Scanned, State, Stats, Stepped};
use wire::{Kind, MAX_FRAME};

// An engine. Both give the same, so that calls of both may follow each other. A scan with a number out of range is
// handled as if reset came first. Buffer, scan and counters stand side by side, as in `feed_at`: what changes is a few
// numbers, which stay out of memory.
pub trait Engine {
    // Takes one byte, with the buffer lent.
    fn step(buf: &mut [u8; MAX_FRAME], scan: Scan, stats: Stats, byte: u8) -> Stepped
        ensures stepped { (result ≡ step_of link_limit (or_reset link_limit scan) stats byte)
            × (buf.new ≡ stored (or_reset link_limit scan) buf.old byte) };

    // Takes the bytes of a slice, up to and with the first that ends a frame.
    fn run(buf: &mut [u8; MAX_FRAME], scan: Scan, stats: Stats, bytes: &[u8]) -> Scanned
        ensures run { let run = run_of link_limit (or_reset link_limit scan) stats buf.old
            bytes.now
            in (result ≡ run.scanned) × (buf.new ≡ run.buf) };
}

// What an engine matches headers and tails with. Length and data are counted alike by both. Each step asks for a
// well-formed scan, or for what one gives: a type of its own for these would be made and taken apart at each byte,
// since a feed answers any scan.
pub(crate) trait Matcher {
    // Takes a byte where a header byte is due.
    fn header(&self, kind: Kind, matched: usize, stats: Stats, byte: u8) -> Stepped
        requires { matched ≤ 3 }
        ensures stepped { result ≡ step_header kind matched stats byte };

    // Takes a byte where a tail byte is due. The last of them ends the frame.
    fn tail(&self, kind: Kind, matched: usize, len: usize, stats: Stats, byte: u8) -> Stepped
        requires { (matched ≤ 3) × (len ≤ link_limit) }
        ensures stepped { result ≡ step_tail kind matched len stats byte };

    // Advances the state machine by one byte.
    #[tactic(auto, using(scan::proofs::Orders::bounds), unfolding(step::specs::Step::step_of))]
    fn advance(&self, scan: Scan, stats: Stats, byte: u8) -> Stepped
        requires { well_formed link_limit scan ≡ true }
        ensures stepped { result ≡ step_of link_limit scan stats byte }
    {
        let kind = scan.kind;
        match scan.state {
            State::Header => self.header(kind, scan.matched, stats, byte),
            State::Len => step_len(kind, scan.matched, scan.len, stats, byte),
            State::Data => step_data(kind, scan.len, scan.pos, stats),
            State::Tail => self.tail(kind, scan.matched, scan.len, stats, byte),
        }
    }

    // Takes one byte, and stores it if it is a data byte.
    fn take(&self, buf: &mut [u8; MAX_FRAME], scan: Scan, stats: Stats, byte: u8) -> Stepped
        requires { well_formed link_limit scan ≡ true }
        ensures stepped { (result ≡ step_of link_limit scan stats byte)
            × (buf.new ≡ stored scan buf.old byte) }
    {
        store(buf, scan, byte);
        self.advance(scan, stats, byte)
    }

    // Takes one or more of the bytes, from place `from` on.
    fn take_some(
        &self,
        buf: &mut [u8; MAX_FRAME],
        scan: Scan,
        stats: Stats,
        bytes: &[u8],
        from: usize,
    ) -> Scanned
        requires { (well_formed link_limit scan ≡ true) × (from < length bytes.now) }
        ensures partial { PartialRun link_limit scan stats buf.old bytes.now from
            result buf.new }
    {
        taking(self.take(buf, scan, stats, bytes[from]), from + 1)
    }

    // Takes the bytes up to and including the first that ends a frame, else all of them, by a loop that breaks with the
    // count, as document 01 requires.
    #[tactic(auto, using(step::proofs::Runs::lefts))]
    fn take_slice(
        &self,
        buf: &mut [u8; MAX_FRAME],
        scan: Scan,
        stats: Stats,
        bytes: &[u8],
    ) -> Scanned
        requires { well_formed link_limit scan ≡ true }
        ensures run { (result ≡ (run_of link_limit scan stats buf.old bytes.now).scanned)
            × (buf.new ≡ (run_of link_limit scan stats buf.old bytes.now).buf) }
    {
        let mut at = scan;
        let mut counted = stats;
        let mut ended = None;
        let mut i = 0;
        let taken = loop {
            if i == bytes.len() {
                break i;
            }
            let run = self.take_some(buf, at, counted, bytes, i);
            at = run.scan;
            counted = run.stats;
            i = run.taken;
            if run.ended.is_some() {
                ended = run.ended;
                break i;
            }
        };
        Scanned {
            scan: at,
            stats: counted,
            ended,
            taken,
        }
    }
}

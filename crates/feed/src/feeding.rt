// Bytes fed into a lent buffer: the scan and the counters go on, and a frame that ended is decoded and counted.
ghost use Rattle.std.specs.Prelude.{◌≡◌, List, ℕ, take, Some, None};
ghost use Rattle.std.specs.Result.{result_ok};
ghost use Rattle.frame.specs.Frame.{decoded};
ghost use Rattle.stream.specs.Length.{link_limit};
ghost use Rattle.feed.specs.Moved.{emitted, run_moved, buf_of, moved_of, slice_buf_of, slice_moved_of};

use crate::counts::count;
use crate::engines::Engine;
use crate::lookup::Tables;
use crate::run::Branches;
use frame::{Frame, decode_data};
use scan::{Ended, Scan, Scanned, Stats, Stepped};
use wire::MAX_FRAME;

// The scan and the counters after a byte or a slice was fed, and the answer: the frame that the byte completed, if any;
// or what the slice feed took.
#[derive(Clone, Copy)]
pub struct Moved<A> {
    pub scan: Scan,
    pub stats: Stats,
    pub answer: A,
}

// The number of bytes that a slice feed took, and the frame that they completed, if any.
#[derive(Clone, Copy)]
pub struct Taken {
    pub count: usize,
    pub frame: Option<Frame>,
}

// Decodes the frame that ended, from its data at the front of the buffer.
fn emit(buf: &[u8; MAX_FRAME], ended: Ended) -> Option<Frame>
    ensures emitted { result ≡ result_ok (decoded 4 ended.kind (take ended.len buf.now)) }
{
    let n = ended.len.min(MAX_FRAME);
    decode_data(ended.kind, &buf[..n]).ok()
}

// Returns the scan and the counters after a step, and the frame that it ended, decoded and counted.
fn answered(buf: &[u8; MAX_FRAME], stepped: Stepped) -> Moved<Option<Frame>>
    ensures answered { result ≡ emitted stepped.ended stepped.scan stepped.stats buf.now }
{
    let Stepped { scan, stats, ended } = stepped;
    let Some(ended) = ended else {
        return Moved {
            scan,
            stats,
            answer: None,
        };
    };
    let answer = emit(buf, ended);
    Moved {
        scan,
        stats: count(stats, answer.is_some()),
        answer,
    }
}

// Returns the same for the run of a slice that ended a frame. Each slice feed tests by itself whether one ended: tested
// in a function that both engines share, it makes a called feed slower (bench/run).
fn with_frame(buf: &[u8; MAX_FRAME], run: Scanned, ended: Ended) -> Moved<Taken>
    requires { run.ended ≡ Some ended }
    ensures answered { result ≡ run_moved (record { scanned = run; buf = buf.now }) }
{
    let frame = emit(buf, ended);
    Moved {
        scan: run.scan,
        stats: count(run.stats, frame.is_some()),
        answer: Taken {
            count: run.taken,
            frame,
        },
    }
}

// Returns the same for the run of a slice that ended no frame.
fn without_frame(run: Scanned) -> Moved<Taken>
    requires { run.ended ≡ None }
    ensures answered { (buf : List ℕ) → result ≡ run_moved (record { scanned = run; buf = buf }) }
{
    Moved {
        scan: run.scan,
        stats: run.stats,
        answer: Taken {
            count: run.taken,
            frame: None,
        },
    }
}

// Feeds one byte, by the engine `E`, to the parser that the lent buffer, the scan and the counters make up.
#[tactic(auto, unfolding(crate::specs::Moved::moved_of, crate::specs::Moved::buf_of))]
pub fn feed_by<E: Engine>(
    buf: &mut [u8; MAX_FRAME],
    scan: Scan,
    stats: Stats,
    byte: u8,
) -> Moved<Option<Frame>>
    ensures moved { (result ≡ moved_of link_limit scan stats buf.old byte)
        × (buf.new ≡ buf_of link_limit scan buf.old byte) }
{
    let stepped = E::step(buf, scan, stats, byte);
    answered(buf, stepped)
}

// Feeds bytes, by the engine `E`, up to and including the end of the first whole frame, decoded or not, else all of
// them.
#[tactic(auto, unfolding(crate::specs::Moved::slice_moved_of, crate::specs::Moved::slice_buf_of))]
pub fn feed_slice_by<E: Engine>(
    buf: &mut [u8; MAX_FRAME],
    scan: Scan,
    stats: Stats,
    bytes: &[u8],
) -> Moved<Taken>
    ensures moved { (result ≡ slice_moved_of link_limit scan stats buf.old bytes.now)
        × (buf.new ≡ slice_buf_of link_limit scan stats buf.old bytes.now) }
{
    let run = E::run(buf, scan, stats, bytes);
    match run.ended {
        Some(ended) => with_frame(buf, run, ended),
        None => without_frame(run),
    }
}

// Feeds one byte to the parser that the lent buffer, the scan and the counters make up.
pub fn feed_at(
    buf: &mut [u8; MAX_FRAME],
    scan: Scan,
    stats: Stats,
    byte: u8,
) -> Moved<Option<Frame>>
    ensures moved { (result ≡ moved_of link_limit scan stats buf.old byte)
        × (buf.new ≡ buf_of link_limit scan buf.old byte) }
{
    feed_by::<Branches>(buf, scan, stats, byte)
}

// Feeds bytes up to and including the end of the first whole frame, decoded or not, else all of them.
pub fn feed_slice_at(
    buf: &mut [u8; MAX_FRAME],
    scan: Scan,
    stats: Stats,
    bytes: &[u8],
) -> Moved<Taken>
    ensures moved { (result ≡ slice_moved_of link_limit scan stats buf.old bytes.now)
        × (buf.new ≡ slice_buf_of link_limit scan stats buf.old bytes.now) }
{
    feed_slice_by::<Branches>(buf, scan, stats, bytes)
}

// Feeds one byte as `feed_at` does, by the table engine.
pub fn table_feed_at(
    buf: &mut [u8; MAX_FRAME],
    scan: Scan,
    stats: Stats,
    byte: u8,
) -> Moved<Option<Frame>>
    ensures moved { (result ≡ moved_of link_limit scan stats buf.old byte)
        × (buf.new ≡ buf_of link_limit scan buf.old byte) }
{
    feed_by::<Tables>(buf, scan, stats, byte)
}

// Feeds bytes as `feed_slice_at` does, by the table engine.
pub fn table_feed_slice_at(
    buf: &mut [u8; MAX_FRAME],
    scan: Scan,
    stats: Stats,
    bytes: &[u8],
) -> Moved<Taken>
    ensures moved { (result ≡ slice_moved_of link_limit scan stats buf.old bytes.now)
        × (buf.new ≡ slice_buf_of link_limit scan stats buf.old bytes.now) }
{
    feed_slice_by::<Tables>(buf, scan, stats, bytes)
}

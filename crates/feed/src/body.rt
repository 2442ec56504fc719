// The length and the data of a frame, which both engines count alike.
ghost use Rattle.std.specs.Prelude.{◌≡◌, true, ◌≤◌, ◌<◌};
ghost use Rattle.stream.specs.Length.{link_limit};
ghost use Rattle.scan.specs.Scan.{well_formed};
ghost use Rattle.scan.specs.Start.{taking_of};
ghost use Rattle.step.specs.Step.{step_len, step_data, stored};

use crate::counts::{abandon, continued, start};
use crate::scans::{in_data, in_len};
use scan::{Scan, Scanned, State, Stats, Stepped};
use stream::in_range;
use wire::{Kind, MAX_FRAME};

// Turns a step into a run that took `taken` bytes.
pub(crate) fn taking(stepped: Stepped, taken: usize) -> Scanned
    ensures scanned { result ≡ taking_of stepped taken }
{
    Scanned {
        scan: stepped.scan,
        stats: stepped.stats,
        ended: stepped.ended,
        taken,
    }
}

// Takes a byte of the length. The second byte of a length out of range is tried as a new start.
pub(crate) fn step_len(kind: Kind, matched: usize, len: usize, stats: Stats, byte: u8) -> Stepped
    requires { len ≤ 255 }
    ensures stepped { result ≡ step_len link_limit kind matched len stats byte }
{
    if matched == 0 {
        return continued(in_len(kind, 1, byte as usize), stats);
    }
    let whole = len + 256 * byte as usize;
    if in_range(whole) {
        return continued(in_data(kind, whole, 0), stats);
    }
    // `abandon` counts the header and the first length byte, `start` counts this one.
    start(abandon(stats, 4 + 1), byte)
}

// Takes a data byte, whatever it is.
pub(crate) fn step_data(kind: Kind, len: usize, pos: usize, stats: Stats) -> Stepped
    requires { pos < len }
    ensures stepped { result ≡ step_data kind len pos stats }
{
    continued(in_data(kind, len, pos + 1), stats)
}

// Stores a data byte.
#[tactic(auto, using(scan::proofs::Orders::bounds), unfolding(step::specs::Step::stored))]
pub(crate) fn store(buf: &mut [u8; MAX_FRAME], scan: Scan, byte: u8)
    requires { well_formed link_limit scan ≡ true }
    ensures stored { buf.new ≡ stored scan buf.old byte }
{
    if scan.state == State::Data {
        buf[scan.pos] = byte;
    }
}

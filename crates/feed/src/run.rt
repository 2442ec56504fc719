// The engine of branches: a byte where a header or tail is matched is compared with the one that is due.
use crate::counts::{abandon, continued, start};
use crate::engines::{Engine, Matcher};
use crate::scans::{in_header, in_len, in_tail};
use scan::{Ended, Scan, Scanned, Stats, Stepped, hunting, or_reset};
use wire::{Kind, MAX_FRAME};

mod parts;

ghost use Rattle.std.specs.Prelude.{◌≡◌, ◌≤◌, get_or};
ghost use Rattle.wire.specs.Family.{header, tail};

use parts::take_some;

// The engine of branches.
pub struct Branches;

// Returns the header byte that follows the first `matched`. One function for header and tail would be passed their
// first bytes, and say no more.
fn header_byte(kind: Kind, matched: usize) -> u8
    requires { matched ≤ 3 }
    ensures expected { result ≡ get_or (header kind) matched 0 }
{
    match kind {
        Kind::Report => 0xF4 - matched as u8,
        Kind::Command => 0xFD - matched as u8,
    }
}

// Returns the tail byte that follows the first `matched`.
fn tail_byte(kind: Kind, matched: usize) -> u8
    requires { matched ≤ 3 }
    ensures expected { result ≡ get_or (tail kind) matched 0 }
{
    match kind {
        Kind::Report => 0xF8 - matched as u8,
        Kind::Command => 0x04 - matched as u8,
    }
}

impl Matcher for Branches {
    // The test `>= 3`, instead of `== 3`, leaves the compiler no case above 3.
    fn header(&self, kind: Kind, matched: usize, stats: Stats, byte: u8) -> Stepped {
        if matched == 0 {
            return start(stats, byte);
        }
        if byte != header_byte(kind, matched) {
            return start(abandon(stats, matched), byte);
        }
        if matched >= 3 {
            return continued(in_len(kind, 0, 0), stats);
        }
        continued(in_header(kind, matched + 1), stats)
    }

    fn tail(&self, kind: Kind, matched: usize, len: usize, stats: Stats, byte: u8) -> Stepped {
        if byte != tail_byte(kind, matched) {
            return start(abandon(stats, 4 + 2 + len + matched), byte);
        }
        if matched >= 3 {
            return Stepped {
                scan: hunting(),
                stats,
                ended: Some(Ended { kind, len }),
            };
        }
        continued(in_tail(kind, matched + 1, len), stats)
    }

    fn take_some(
        &self,
        buf: &mut [u8; MAX_FRAME],
        scan: Scan,
        stats: Stats,
        bytes: &[u8],
        from: usize,
    ) -> Scanned {
        take_some(buf, scan, stats, bytes, from)
    }
}

impl Engine for Branches {
    #[tactic(auto, using(scan::proofs::Orders::or_reset_formed))]
    fn step(buf: &mut [u8; MAX_FRAME], scan: Scan, stats: Stats, byte: u8) -> Stepped {
        Branches.take(buf, or_reset(scan), stats, byte)
    }

    #[tactic(auto, using(scan::proofs::Orders::or_reset_formed))]
    fn run(buf: &mut [u8; MAX_FRAME], scan: Scan, stats: Stats, bytes: &[u8]) -> Scanned {
        Branches.take_slice(buf, or_reset(scan), stats, bytes)
    }
}

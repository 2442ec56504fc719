// Scans: one for each part of a frame.
ghost use Rattle.std.specs.Prelude.{◌≡◌};
ghost use Rattle.scan.specs.Scan.{at, data_at};
ghost use Rattle.scan.specs.declared.State.TheVariants.{Header, Len, Tail};

use scan::{Scan, State};
use wire::Kind;

// Returns a scan in a header, with `matched` of its bytes taken.
pub(crate) fn in_header(kind: Kind, matched: usize) -> Scan
    ensures made { result ≡ at Header kind matched 0 0 }
{
    Scan {
        state: State::Header,
        kind,
        matched,
        len: 0,
        pos: 0,
    }
}

// Returns a scan in the length, with `matched` of its bytes taken. It and `in_tail` differ in the fields that they
// fill, so one function would be no plainer.
pub(crate) fn in_len(kind: Kind, matched: usize, len: usize) -> Scan
    ensures made { result ≡ at Len kind matched len 0 }
{
    Scan {
        state: State::Len,
        kind,
        matched,
        len,
        pos: 0,
    }
}

// Returns a scan in the data, with `pos` of them taken; or in the tail, if those are all.
pub(crate) fn in_data(kind: Kind, len: usize, pos: usize) -> Scan
    ensures made { result ≡ data_at kind len pos }
{
    if len <= pos {
        return in_tail(kind, 0, len);
    }
    Scan {
        state: State::Data,
        kind,
        matched: 0,
        len,
        pos,
    }
}

// Returns a scan in the tail, with `matched` of its bytes taken.
pub(crate) fn in_tail(kind: Kind, matched: usize, len: usize) -> Scan
    ensures made { result ≡ at Tail kind matched len len }
{
    Scan {
        state: State::Tail,
        kind,
        matched,
        len,
        pos: len,
    }
}

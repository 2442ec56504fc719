// The run of a slice by branches: the data are copied, and one loop takes the parts of a frame that are not stored, so
// that a byte moves no more than it must.
ghost use Rattle.std.specs.Prelude.{◌≡◌, ◌⊎◌, List, true, ℕ, ◌<◌, length};
ghost use Rattle.stream.specs.Length.{link_limit};
ghost use Rattle.scan.specs.Scan.{well_formed};
ghost use Rattle.step.specs.Phase.{AtState, PartialRun, DataRun};
ghost use Rattle.scan.specs.declared.State.TheVariants.{Data, Tail};

use super::Branches;
use crate::body::{step_data, step_len, taking};
use crate::counts::continued;
use crate::engines::Matcher;
use crate::scans::{in_data, in_tail};
use scan::{Scan, Scanned, State, Stats};
use wire::MAX_FRAME;

// Takes the data bytes that are due, or as many as come; none if the scan is not in the data. They are copied by a loop:
// `copy_from_slice` would need a `memmove` from whoever links the library.
#[tactic(auto, using(scan::proofs::Orders::bounds))]
fn take_data(
    buf: &mut [u8; MAX_FRAME],
    scan: Scan,
    stats: Stats,
    bytes: &[u8],
    from: usize,
) -> Scanned
    requires { (well_formed link_limit scan ≡ true) × (from < length bytes.now) }
    ensures copied { DataRun link_limit scan stats buf.old bytes.now from
        result buf.new }
{
    if scan.state != State::Data {
        return taking(continued(scan, stats), from);
    }
    let Scan { kind, len, pos, .. } = scan;
    let n = (len - pos).min(bytes.len() - from);
    for j in 0..n {
        buf[pos + j] = bytes[from + j];
    }
    let taken = from + n;
    if taken == bytes.len() {
        taking(continued(in_data(kind, len, pos + n), stats), taken)
    } else {
        taking(continued(in_tail(kind, 0, len), stats), taken)
    }
}

// Tests whether a part that is not stored goes on after a step from `state` to `next`. Only a tail leads to a tail, so
// the arm for it compares no state.
fn stays(state: State, next: State) -> bool
    ensures same { result ≡ true → (next ≡ Tail) ⊎ (next ≡ state) }
{
    matches!(
        (next, state),
        (State::Header, State::Header) | (State::Len, State::Len) | (State::Tail, _)
    )
}

// Takes the bytes of a part that is not stored: a header, a length or a tail. The arm for data is never taken; a step
// of its own there costs the others nothing. It is a loop, since the first step that leaves the part ends it.
#[tactic(auto, using(scan::proofs::Orders::bounds))]
fn take_part(scan: Scan, stats: Stats, bytes: &[u8], from: usize) -> Scanned
    requires { AtState link_limit scan.state scan bytes.now from × (scan.state ≡ Data → ⊥) }
    ensures partial { (buf : List ℕ) → PartialRun link_limit scan stats buf bytes.now from result buf }
{
    let state = scan.state;
    let mut at = scan;
    let mut counted = stats;
    let mut i = from;
    loop {
        let kind = at.kind;
        let stepped = match state {
            State::Header => Branches.header(kind, at.matched, counted, bytes[i]),
            State::Len => step_len(kind, at.matched, at.len, counted, bytes[i]),
            State::Data => step_data(kind, at.len, at.pos, counted),
            State::Tail => Branches.tail(kind, at.matched, at.len, counted, bytes[i]),
        };
        i += 1;
        if !stays(state, stepped.scan.state) || i >= bytes.len() {
            break taking(stepped, i);
        }
        at = stepped.scan;
        counted = stepped.stats;
    }
}

// Takes at least one byte: data bytes that are due, then the bytes of one part that is not stored.
#[tactic(auto, using(crate::proofs::Copies::data_last, crate::proofs::Copies::data_then))]
pub(crate) fn take_some(
    buf: &mut [u8; MAX_FRAME],
    scan: Scan,
    stats: Stats,
    bytes: &[u8],
    from: usize,
) -> Scanned
    requires { (well_formed link_limit scan ≡ true) × (from < length bytes.now) }
    ensures partial { PartialRun link_limit scan stats buf.old bytes.now from
        result buf.new }
{
    let copied = take_data(buf, scan, stats, bytes, from);
    if copied.taken == bytes.len() {
        return copied;
    }
    take_part(copied.scan, copied.stats, bytes, copied.taken)
}

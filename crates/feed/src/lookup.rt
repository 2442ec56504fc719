// The engine of tables: where a header or tail is matched, the tables give the next state.
ghost use Rattle.std.specs.Prelude.{◌≡◌, ◌≤◌, ◌<◌};
ghost use Rattle.tables.specs.Table.{class_of, header_state, tail_state, next_of, Classes, Nexts};
ghost use Rattle.feed.specs.States.{in_state, ended_in, counted_in, step_to};

use crate::counts::{given_up, stray};
use crate::engines::{Engine, Matcher};
use crate::scans::{in_header, in_len, in_tail};
use scan::{Ended, Scan, Scanned, Stats, Stepped, hunting, or_reset};
use tables::{classes, nexts};
use wire::{Kind, MAX_FRAME};

// The engine of tables. It holds both tables, made once for a feed.
#[derive(Drop)]
pub struct Tables {
    classes: [u8; 256],
    nexts: [[u8; 17]; 16],
    ghost classed: { Classes classes },
    ghost led: { Nexts nexts },
}

// Returns the matching state after `matched` header bytes. One function for header and tail would be passed the number
// of its first row, and say less.
fn header_state(kind: Kind, matched: usize) -> usize
    requires { matched ≤ 3 }
    ensures number { result ≡ header_state kind matched }
{
    match kind {
        Kind::Report => matched,
        Kind::Command => 4 + matched,
    }
}

// Returns the matching state after `matched` tail bytes.
fn tail_state(kind: Kind, matched: usize) -> usize
    requires { matched ≤ 3 }
    ensures number { result ≡ tail_state kind matched }
{
    match kind {
        Kind::Report => 8 + matched,
        Kind::Command => 12 + matched,
    }
}

impl Tables {
    // Makes both tables.
    fn new() -> Self {
        Tables {
            classes: classes(),
            nexts: nexts(),
        }
    }

    // Returns the state after a matching state on the byte.
    #[tactic(auto, using(tables::proofs::Due::class_most))]
    fn next(&self, state: usize, byte: u8) -> u8
        requires { state < 16 }
        ensures next { result ≡ next_of state (class_of byte) }
    {
        let class = self.classes[byte as usize] as usize;
        self.nexts[state][class]
    }
}

// Returns the scan in a state of a frame with `len` data bytes.
fn in_state(state: u8, len: usize) -> Scan
    ensures made { result ≡ in_state state len }
{
    let matched = (state % 4) as usize;
    match state {
        0..=3 => in_header(Kind::Report, matched),
        4..=7 => in_header(Kind::Command, matched),
        8..=11 => in_tail(Kind::Report, matched, len),
        12..=15 => in_tail(Kind::Command, matched, len),
        16 => in_len(Kind::Report, 0, 0),
        20 => in_len(Kind::Command, 0, 0),
        _ => hunting(),
    }
}

// Returns the frame that ends in a state, if one does.
fn ended_in(state: u8, len: usize) -> Option<Ended>
    ensures ended { result ≡ ended_in state len }
{
    let kind = match state {
        24 => Kind::Report,
        28 => Kind::Command,
        _ => return None,
    };
    Some(Ended { kind, len })
}

// Counts the byte that led to a state, after `taken` bytes of a frame: those are given up unless it was matched.
fn counted_in(stats: Stats, taken: usize, state: u8) -> Stats
    ensures counted { result ≡ counted_in stats taken state }
{
    match state {
        0 => stray(given_up(stats, taken)),
        1 | 5 => given_up(stats, taken),
        _ => stats,
    }
}

// Returns the step that leads to a state, after `taken` bytes of a frame with `len` data bytes.
fn step_to(state: u8, taken: usize, len: usize, stats: Stats) -> Stepped
    ensures stepped { result ≡ step_to taken len stats state }
{
    Stepped {
        scan: in_state(state, len),
        stats: counted_in(stats, taken, state),
        ended: ended_in(state, len),
    }
}

impl Matcher for Tables {
    #[tactic(auto, using(crate::proofs::States::header_row, crate::proofs::States::header_same))]
    fn header(&self, kind: Kind, matched: usize, stats: Stats, byte: u8) -> Stepped {
        let next = self.next(header_state(kind, matched), byte);
        step_to(next, matched, 0, stats)
    }

    #[tactic(auto, using(crate::proofs::States::tail_row, crate::proofs::States::tail_same))]
    fn tail(&self, kind: Kind, matched: usize, len: usize, stats: Stats, byte: u8) -> Stepped {
        let next = self.next(tail_state(kind, matched), byte);
        step_to(next, 4 + 2 + len + matched, len, stats)
    }
}

impl Engine for Tables {
    // A byte is taken as a slice of one. So `take` has one caller, the loop over a slice, and is compiled into it: called
    // at each byte, it passed scan and counters through memory, and a slice took twice to four times the instructions.
    #[tactic(auto, using(scan::proofs::Orders::or_reset_formed, crate::proofs::Singles::single))]
    fn step(buf: &mut [u8; MAX_FRAME], scan: Scan, stats: Stats, byte: u8) -> Stepped {
        let run = Tables::new().take_slice(buf, or_reset(scan), stats, &[byte]);
        Stepped {
            scan: run.scan,
            stats: run.stats,
            ended: run.ended,
        }
    }

    #[tactic(auto, using(scan::proofs::Orders::or_reset_formed))]
    fn run(buf: &mut [u8; MAX_FRAME], scan: Scan, stats: Stats, bytes: &[u8]) -> Scanned {
        Tables::new().take_slice(buf, or_reset(scan), stats, bytes)
    }
}

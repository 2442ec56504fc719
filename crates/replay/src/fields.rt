// The parser that the scripts of ops 13 and 17 begin with, built from its fields.
use crate::numbers::{u64_at, usize_at};
use ld2410::{Kind, MAX_FRAME, Parser, Scan, State, Stats};
use replay_io::argument::{rest, u8_at};
use wire::zero_padded;

// Where a parser's buffer begins in an argument of those ops.
const BUFFER_AT: usize = 58;

// Where the script begins in such an argument.
pub const SCRIPT_AT: usize = BUFFER_AT + MAX_FRAME;

// Builds the parser from its fields; none if the argument is too short, or its state or its kind has no name.
pub fn parser_in(argument: &[u8]) -> Option<Parser> {
    if argument.len() < SCRIPT_AT {
        return None;
    }
    Some(Parser {
        buf: zero_padded(rest(argument, BUFFER_AT)),
        scan: scan_in(argument)?,
        stats: stats_in(argument),
    })
}

// Reads the scan in an argument of those ops.
fn scan_in(argument: &[u8]) -> Option<Scan> {
    Some(Scan {
        state: state_of(u8_at(argument, 0))?,
        kind: kind_of(u8_at(argument, 1))?,
        matched: usize_at(argument, 2),
        len: usize_at(argument, 10),
        pos: usize_at(argument, 18),
    })
}

// Returns the state with the number. It and the kind are of other crates, for which no `TryFrom` can be written here.
fn state_of(number: u8) -> Option<State> {
    match number {
        0 => Some(State::Header),
        1 => Some(State::Len),
        2 => Some(State::Data),
        3 => Some(State::Tail),
        _ => None,
    }
}

// Returns the kind with the number.
fn kind_of(number: u8) -> Option<Kind> {
    match number {
        0 => Some(Kind::Report),
        1 => Some(Kind::Command),
        _ => None,
    }
}

// Reads the counters in an argument of those ops.
fn stats_in(argument: &[u8]) -> Stats {
    Stats {
        frames: u64_at(argument, 26),
        resyncs: u64_at(argument, 34),
        dropped: u64_at(argument, 42),
        malformed: u64_at(argument, 50),
    }
}

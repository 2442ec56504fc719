// Inputs of the counting program that its own stored input leaves out. Each prints one line. `stdout` has the lines
// that document 01 gives, worked out by hand.

#![tactic(auto)]

use counting::{feed_all, print_counts, read_all};
use ld2410::Parser;
use std::io;
use std::io::{Read, Write};

// No input: each read fails.
#[derive(Drop)]
struct Missing;

impl Read for Missing {
    fn read(&mut self, _buf: &mut [u8]) -> io::Result<usize> {
        Err(io::Error::from(io::ErrorKind::NotFound))
    }
}

// Prints the parser's numbers on a line.
fn show<W: Write>(out: &mut W, parser: Parser) {
    print_counts(out, parser);
}

// Feeds the frame again and again in two parts: cut at each place, its two ends included.
fn cut_everywhere(frame: &[u8]) -> Parser {
    let mut at = Parser::new();
    for cut in 0..=frame.len() {
        let first = feed_all(at, &frame[..cut]);
        at = feed_all(first, &frame[cut..]);
    }
    at
}

fn main(rt: HostRuntime) {
    let mut input = rt.stdin();
    let mut out = rt.stdout();
    // The stored input: B 400 times, which is longer than two read buffers. 400 frames.
    show(&mut out, read_all(&mut input));
    // Standard input again, now at its end: the empty input.
    show(&mut out, read_all(&mut input));
    // No input at all: the read fails, which counts as the end.
    show(&mut out, read_all(&mut Missing));
    // 5,000 bytes F4, in one call: each but the last is a start that the next one breaks.
    show(&mut out, feed_all(Parser::new(), &[0xF4; 5000]));
    // "F4 F3, then reset: all counters 0", before the reset and after it.
    let begun = feed_all(Parser::new(), &[0xF4, 0xF3]);
    show(&mut out, begun);
    show(&mut out, begun.cleared());
    // Document 01's case B in two parts, cut at each of its 24 places: 24 frames.
    show(
        &mut out,
        cut_everywhere(
            b"\xF4\xF3\xF2\xF1\x0D\x00\x02\xAA\x03\x78\x00\x3C\x96\x00\x2D\xC8\x00\x55\x00\xF8\xF7\xF6\xF5",
        ),
    );
}

// Counting what a stream holds: any number of bytes are fed to a parser, and its numbers printed on one line.

#![tactic(auto)]

ghost use Rattle.std.specs.Prelude.{◌≡◌, ◌≤◌, length, take};
ghost use Rattle.wire.specs.Bytes.{Bytes};
ghost use Rattle.stream.specs.Length.{link_limit};
ghost use Rattle.engine.specs.Calls.{feeds};
ghost use Rattle.parser.specs.Claims.{left};
ghost use Rattle.parser.specs.Feed.{fresh};
ghost use Rattle.parser.specs.Engine.{pending_by};
ghost use Rattle.counting.specs.Counts.{counts_of};
ghost use Rattle.counting.specs.Counted.{FedAll, Line};
ghost use Rattle.counting.specs.Reached.{Reached, read_len, turn_of, Turned};

use ld2410::Parser;
use std::io::{Read, Write};
use std::{fmt, io};

// Feeds all of `bytes`: a slice feed stops after each whole frame, and is called again with the rest. Any parser is
// left as by feeding the bytes one by one, and has counted what demand 3 says; no bytes leave it as it was. The loop
// lends the parser, so that no turn copies it; it moves on by what a feed took, so no `for` is plainer.
pub fn feed_all(parser: Parser, bytes: &[u8]) -> Parser
    ensures fed { result ≡ left parser (feeds bytes.now) }
    ensures bytes { Bytes bytes.now }
    ensures counted { FedAll (pending_by link_limit parser) parser bytes.now result }
{
    let mut fed = parser;
    let mut rest = bytes;
    while !rest.is_empty() {
        let taken = fed.feed_slice(rest);
        rest = &rest[taken.count..];
    }
    fed
}

// The parser after a read, and whether more may come, which says nothing of the parser.
#[derive(Clone, Copy)]
struct Turn {
    parser: Parser,
    more: bool,
}

// Returns how many bytes a read gave, for a buffer of `most`: none if it failed.
fn read_count(got: io::Result<usize>, most: usize) -> usize
    ensures counted { result ≡ read_len got most }
    ensures inside { result ≤ most }
{
    got.unwrap_or(0).min(most)
}

// Feeds the bytes that a read put at the start of `buf`, all those and no others; `got` is what the read answered. More
// may come if there was any. A read that fails counts as the end of the input.
fn feed_read(parser: Parser, buf: &[u8], got: io::Result<usize>) -> Turn
    ensures turned { result ≡ turn_of parser buf.now got }
    ensures bytes { Bytes (take (read_len got (length buf.now)) buf.now) }
{
    let n = read_count(got, buf.len());
    Turn {
        parser: feed_all(parser, &buf[..n]),
        more: n > 0,
    }
}

// Reads once, and feeds what came. No contract can name the bytes that a read gives, nor say that the read was made:
// these three lines are trusted to take the bytes of this contract from the input.
fn read_some<R: Read>(input: &mut R, parser: Parser) -> Turn
    ensures turned { Turned parser result }
{
    let mut buf = [0u8; 4096];
    let got = input.read(&mut buf);
    feed_read(parser, &buf, got)
}

// Reads until the buffer is full or nothing more comes, and returns how many bytes are then in front. A read that fails
// counts as the end of the input. The loop moves on by what a read gave, so no `for` is plainer.
pub fn read_full<R: Read>(input: &mut R, buf: &mut [u8]) -> usize
    ensures inside { result ≤ length buf.new }
{
    let mut filled = 0;
    while filled < buf.len() {
        let most = buf.len() - filled;
        let n = read_count(input.read(&mut buf[filled..]), most);
        if n == 0 {
            return filled;
        }
        filled += n;
    }
    filled
}

// Feeds all that can be read from `input` to a fresh parser. A proved loop must end, and nothing says that an input
// does. So the loop counts its turns, up to a number that no run reaches.
pub fn read_all<R: Read>(input: &mut R) -> Parser
    ensures reached { Reached fresh result }
    ensures line { Line (counts_of result) }
{
    let mut at = Parser::new();
    for _ in 0..u64::MAX {
        let turn = read_some(input, at);
        at = turn.parser;
        if !turn.more {
            break;
        }
    }
    at
}

// The numbers of a line, in its order.
#[derive(Clone, Copy)]
pub struct Counts {
    pub frames: u64,
    pub resyncs: u64,
    pub dropped: u64,
    pub malformed: u64,
    pub unfinished: usize,
}

impl Counts {
    // Returns what the parser has counted, and how many bytes of a frame it has in progress.
    fn of(parser: Parser) -> Self
        ensures told { result ≡ counts_of parser }
    {
        let stats = parser.stats();
        Counts {
            frames: stats.frames,
            resyncs: stats.resyncs,
            dropped: stats.dropped,
            malformed: stats.malformed,
            unfinished: parser.unfinished(),
        }
    }
}

// The numbers in decimal, with one space between.
impl fmt::Display for Counts {
    fn fmt<W: fmt::Write>(&self, f: &mut fmt::Formatter<W>) -> fmt::Result {
        let Counts {
            frames,
            resyncs,
            dropped,
            malformed,
            unfinished,
        } = self;
        write!(f, "{frames} {resyncs} {dropped} {malformed} {unfinished}")
    }
}

// Prints the line `frames resyncs dropped malformed unfinished`, and a line feed after it. Returns the numbers on it;
// no contract can name what is printed. What a writer refuses is lost.
pub fn print_counts<W: Write>(out: &mut W, parser: Parser) -> Counts
    ensures told { result ≡ counts_of parser }
{
    let counts = Counts::of(parser);
    let Counts {
        frames,
        resyncs,
        dropped,
        malformed,
        unfinished,
    } = counts;
    for number in [frames, resyncs, dropped, malformed] {
        print_number(out, number, b" ");
    }
    print_number(out, unfinished as u64, b"\n");
    counts
}

// Prints a number, and then `end`. Each is a write of its own, and not a part of one line by `Display`: of that a writer
// which refuses one part would lose all that follows.
fn print_number<W: Write>(out: &mut W, number: u64, end: &[u8]) {
    let _ = write!(out, "{number}");
    let _ = out.write_all(end);
}

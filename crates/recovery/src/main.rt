// What a disturbance of the stream costs. Standard input holds whole frames that decode, back to back, up to 4,096
// bytes. The program disturbs it at each byte, in each way of a small list: a fresh parser takes the bytes before, what
// is put in, and the rest. The boundary is the first start of a frame in the rest, or its end: from there on only whole
// frames come. Such a frame is found if its last byte delivers a frame, and before that byte exactly its other bytes
// were in progress; else it is lost. Its distance is that of its start from the boundary. The output has a line for
// each way, and the bound of request 5, which is for frames with neither F4 nor FD among their data. The file stdout
// beside src/ has what the original Rust loses (compare/src/recovery.rs).

#![tactic(auto)]

use cost::{Cost, Lost};
use counting::{feed_all, read_full};
use frames::Frames;
use ld2410::{MAX_DATA, Parser};
use std::io;
use way::Way;

mod cost;
mod frames;
mod noise;
mod way;

ghost use Rattle.std.specs.Prelude.{◌<◌, ◌≤◌, length};

// Feeds a frame of a byte or more to the parser, and tests whether it is found.
fn finds(parser: &mut Parser, frame: &[u8]) -> bool
    requires some { 0 < length frame.now }
{
    let (last, front) = frame.split_last().unwrap();
    *parser = feed_all(*parser, front);
    let begun = parser.unfinished();
    parser.feed(*last).is_some() && begun == front.len()
}

// Feeds the whole frames from the boundary on, and returns those that are lost.
fn lost(parser: Parser, whole: &[u8]) -> Lost {
    let mut parser = parser;
    let mut lost = Lost::default();
    for placed in Frames::of(whole) {
        if !finds(&mut parser, placed.frame) {
            lost.count(placed.start);
        }
    }
    lost
}

// Disturbs the input at a place, with each disturbance of a way, and counts the streams; the parser has taken the bytes
// before.
fn disturb(cost: &mut Cost, way: Way, parser: Parser, bytes: &[u8], place: usize)
    requires inside { place < length bytes.now }
{
    let rest = place + way.left_out();
    let boundary = frames::boundary(bytes, rest);
    let byte = bytes[place];
    for disturbed in (0..=u8::MAX).filter_map(|number| way.disturbed(number, byte, parser)) {
        let at = feed_all(disturbed, &bytes[rest..boundary]);
        cost.count(lost(at, &bytes[boundary..]));
    }
}

// Disturbs the input at each place.
fn everywhere(way: Way, bytes: &[u8]) -> Cost {
    let mut cost = Cost::default();
    let mut before = Parser::new();
    for (place, byte) in bytes.iter().enumerate() {
        disturb(&mut cost, way, before, bytes, place);
        before.feed(*byte);
    }
    cost
}

fn main(rt: HostRuntime) -> io::Result<()> {
    let mut input = [0u8; 4096];
    let n = read_full(&mut rt.stdin(), &mut input);
    let bytes = &input[..n];
    println!(rt; "changed: {}", everywhere(Way::Changed, bytes))?;
    println!(rt; "dropped: {}", everywhere(Way::Dropped, bytes))?;
    println!(rt; "inserted: {}", everywhere(Way::Inserted, bytes))?;
    println!(rt; "noise: {}", everywhere(Way::Noise, bytes))?;
    println!(rt; "bound: none {MAX_DATA} or more bytes after the boundary")
}

// Answers cases from standard input: each calls a function of the link on the bytes that it brings, and its answer is a
// line of numbers. docs/REPLAY.md has the form of both.

#![tactic(auto)]

mod commands;
mod fields;
mod loads;
mod numbers;
mod ops;
mod readers;
mod replies;
mod scripts;
mod values;
mod writers;

use replay_io::answers::answer_all;
use replay_io::input;
use replay_io::line::Text;

fn main(rt: HostRuntime) {
    let mut input = [0u8; input::SIZE];
    let mut out = Text::new(rt.stdout());
    answer_all(&mut rt.stdin(), &mut input, &mut out, ops::answer);
}

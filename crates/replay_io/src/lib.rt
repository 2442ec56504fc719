// What the replay programs share (docs/REPLAY.md): cases read from standard input, the fields of an argument, and lines
// of numbers.

#![tactic(auto)]

pub mod answers;
pub mod argument;
pub mod commands;
pub mod input;
pub mod line;
pub mod number;
pub mod script;

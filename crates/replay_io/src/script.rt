// The calls of a SCRIPT on a parser, one after another.
ghost use Rattle.std.specs.Prelude.{◌≡◌, ◌≤◌, length};
ghost use Rattle.replay_io.specs.Script.{call_length, call_size, first_call, meaning};

use crate::argument::{rest, u8_at, u16_at};

// A call on a parser.
#[derive(Clone, Copy)]
pub enum Call<'a> {
    // Feeds a byte.
    Byte(u8),
    // Feeds bytes as one slice.
    Slice(&'a [u8]),
    // Resets.
    Reset,
}

// A script. Its calls come one after another, up to one that is cut short or has no meaning.
#[derive(Drop)]
pub struct Script<'a>(pub &'a [u8]);

impl<'a> Iterator for Script<'a> {
    ghost use Rattle.std.specs.Prelude.{length};
    ghost use Rattle.std.specs.Iterator.{at_most};
    ghost use Rattle.replay_io.specs.Script.{NextCall};

    type Item = Call<'a>;

    ghost next_gives = { λ s r t. NextCall s.0.now r t.0.now };

    ghost remaining = { λ s. at_most (length s.0.now) };

    fn next(&mut self) -> Option<Call<'a>> {
        let size = call_size(self.0);
        if size == 0 {
            return None;
        }
        let call = first_call(self.0);
        self.0 = &self.0[size..];
        Some(call)
    }
}

// Reads the first call of a script that has one.
#[tactic(auto, unfolding(crate::specs::Script::first_call))]
fn first_call(script: &[u8]) -> Call<'_>
    ensures meant { meaning result ≡ first_call script.now }
{
    match u8_at(script, 0) {
        0 => Call::Byte(u8_at(script, 1)),
        1 => {
            let bytes = rest(script, 3);
            let count = bytes.len().min(u16_at(script, 1) as usize);
            Call::Slice(&bytes[..count])
        }
        _ => Call::Reset,
    }
}

// Returns the length of the first call of a script, by its number; 0 if no call has the number. The number is read here
// and in `first_call`, since a call is read only once all its bytes are there.
#[tactic(auto, unfolding(crate::specs::Script::call_length))]
fn call_length(script: &[u8]) -> usize
    ensures told { result ≡ call_length script.now }
{
    match u8_at(script, 0) {
        0 => 2,
        1 => 3 + u16_at(script, 1) as usize,
        2 => 1,
        _ => 0,
    }
}

// Returns the length of the first call of a script; 0 if there is none, or not all of it.
#[tactic(auto, unfolding(crate::specs::Script::call_size))]
pub fn call_size(script: &[u8]) -> usize
    ensures told { result ≡ call_size script.now }
    ensures inside { result ≤ length script.now }
{
    let size = call_length(script);
    if script.len() < size { 0 } else { size }
}

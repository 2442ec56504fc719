// The cases of the input: an op (1 byte), the argument's length (4) and the argument. They are read into a buffer that
// the caller lends, and each stays there until the next is asked for.
ghost use Rattle.std.specs.Prelude.{◌≡◌, ◌-◌, ◌≤◌, length, take, drop};
ghost use Rattle.replay_io.specs.Case.{found_in, decided, is_case, sized, nothing_read, next_at, NextCase, Grown};

use crate::argument::u32_at;
use std::io::Read;

// Bytes of a buffer that holds any case.
pub const SIZE: usize = 131_072;

// Bytes of a case before its argument.
pub const HEAD: usize = 5;

// Most bytes of an argument.
const LONGEST: u32 = 70_000;

// What comes next in the input.
#[derive(Clone, Copy, PartialEq, Eq)]
pub enum Found {
    // A whole case.
    Case,
    // A case whose argument is too long.
    Long,
    // A part of a case, after which the input has ended.
    Short,
    // Nothing: the input has ended.
    End,
}

// The next case: the bytes of the buffer from `start` to `end`, of the `read` bytes that were read. If no case is
// found, it has no bytes. It has places and no slice, since more is read into the buffer after it, and `found`
// beside them, since `NextCase` speaks of the places after any of its values.
#[derive(Clone, Copy)]
pub struct Next {
    pub start: usize,
    pub end: usize,
    pub read: usize,
    pub found: Found,
}

impl Next {
    // Tests whether it is a case.
    pub fn is_case(self) -> bool
        ensures tested { result ≡ is_case self.found }
    {
        self.found == Found::Case
    }
}

// Returns what comes before the first case: nothing is read yet.
pub fn nothing_read() -> Next
    ensures made { result ≡ nothing_read }
{
    Next {
        start: 0,
        end: 0,
        read: 0,
        found: Found::End,
    }
}

// Returns the case after `case`, the one that was given before. The bytes that follow that one are kept: a case that is
// cut short is moved to the front of the buffer, and more are read after it until it is whole or too long, or the input
// ends. A read that fails counts as the end of the input, and so does a buffer that is full; one of
// `SIZE` bytes holds any case. No contract can name the bytes that a read gives, nor say that the read was made: `more`
// is trusted to put the input's bytes after those that were kept.
pub fn next_case<R: Read>(from: &mut R, input: &mut [u8], case: Next) -> Next
    ensures found { NextCase input.old case input.new result }
{
    let read = case.read.min(input.len());
    let start = case.end.min(read);
    let next = next_at(input, start, read);
    if is_decided(next.found) {
        return next;
    }
    let kept = keep(input, start, read);
    let end = fill(from, input, kept);
    next_at(input, 0, end)
}

// Returns the case at the front of the bytes from `start` to `read`.
#[tactic(auto, using(crate::proofs::Cases::next_end), unfolding(crate::specs::Case::next_at))]
fn next_at(input: &[u8], start: usize, read: usize) -> Next
    requires ordered { start ≤ read }
    requires inside { read ≤ length input.now }
    ensures found { result ≡ next_at input.now start read }
{
    let bytes = &input[start..read];
    let found = found_in(bytes);
    let size = size_of(found, bytes);
    Next {
        start,
        end: start + size,
        read,
        found,
    }
}

// Returns what is at the front of the bytes, if nothing follows them.
#[tactic(auto, unfolding(crate::specs::Case::found_in))]
fn found_in(bytes: &[u8]) -> Found
    ensures found { result ≡ found_in bytes.now }
{
    let n = u32_at(bytes, 1);
    if n > LONGEST {
        return Found::Long;
    }
    if HEAD + n as usize <= bytes.len() {
        return Found::Case;
    }
    if bytes.len() == 0 {
        Found::End
    } else {
        Found::Short
    }
}

// Returns the length of a case that was found at the front of the bytes; 0 if none was.
#[tactic(auto, unfolding(crate::specs::Case::sized))]
fn size_of(found: Found, bytes: &[u8]) -> usize
    ensures sized { result ≡ sized found bytes.now }
{
    match found {
        Found::Case => HEAD + u32_at(bytes, 1) as usize,
        Found::Long | Found::Short | Found::End => 0,
    }
}

// Tests whether what was found stays so, whatever follows.
fn is_decided(found: Found) -> bool
    ensures tested { result ≡ decided found }
{
    matches!(found, Found::Case | Found::Long)
}

// Moves the bytes from `used` to `end` to the front, and returns how many they are.
fn keep(input: &mut [u8], used: usize, end: usize) -> usize
    requires ordered { used ≤ end }
    requires inside { end ≤ length input.old }
    ensures counted { result ≡ end - used }
    ensures moved { take result input.new ≡ take (end - used) (drop used input.old) }
{
    input.copy_within(used..end, 0);
    end - used
}

// Reads after the bytes that are kept at the front, until a case is whole or too long, or nothing comes. Returns how
// many bytes the buffer has then. It is a loop, since a read says how far the buffer goes, and nothing is counted.
#[tactic(auto, using(crate::proofs::Cases::grown_none, crate::proofs::Cases::grown_more))]
fn fill<R: Read>(from: &mut R, input: &mut [u8], kept: usize) -> usize
    requires inside { kept ≤ length input.old }
    ensures grown { Grown input.old kept input.new result }
{
    let mut read = kept;
    loop {
        let end = more(from, input, read);
        if end == read {
            return end;
        }
        if is_decided(found_in(&input[0..end])) {
            return end;
        }
        read = end;
    }
}

// Reads once, after the bytes that are kept at the front, and returns how many bytes the buffer has then: as many as
// before if the input has ended or a read failed.
fn more<R: Read>(from: &mut R, input: &mut [u8], kept: usize) -> usize
    requires inside { kept ≤ length input.old }
    ensures grown { Grown input.old kept input.new result }
{
    let space = &mut input[kept..];
    match from.read(space) {
        Ok(got) => kept + got,
        Err(_) => kept,
    }
}

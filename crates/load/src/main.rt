// Writes the load of a seed, in a buffer of 65,536 bytes, to standard output. The seed is the one argument, in decimal.
// Without one argument that is a number from 1 to 4,294,967,295, it writes a line to standard error and nothing else.

#![tactic(auto)]

ghost use Rattle.std.specs.Prelude.{◌≡◌, if◌then◌else◌};
ghost use Rattle.load.specs.Seed.{is_taken, with_digit, seed_of, SeedExamples};

use load_writer::write_load;
use std::env::{Env, FillError};
use std::io;

// Returns the number with the digit after it, if the character is a digit and that number has at most 32 bits.
fn with_digit(seed: u32, c: u8) -> Option<u32>
    ensures number { result ≡ (if is_taken seed c then Some (with_digit seed c) else None) }
{
    let digit = match c {
        b'0'..=b'9' => c - b'0',
        _ => return None,
    };
    seed.checked_mul(10)?.checked_add(digit as u32)
}

// Reads a seed in decimal. A text that is no seed gives 0, as `SeedExamples` says: `write_load` refuses that seed.
// `parse` of std would take a sign.
fn seed_in(text: &[u8]) -> u32
    ensures read { result ≡ seed_of text.now }
    ensures examples { SeedExamples }
{
    let mut seed = 0;
    for c in text {
        let Some(longer) = with_digit(seed, *c) else {
            return 0;
        };
        seed = longer;
    }
    seed
}

// Reads the seed that the one argument is, or gives 0. An argument longer than the buffer is no seed.
fn given(rt: &impl Env) -> u32 {
    let mut text = [0; 4096];
    if !matches!(rt.arg(2, &mut text), Err(FillError::NotPresent)) {
        return 0;
    }
    match rt.arg(1, &mut text) {
        Ok(n) => seed_in(&text[..n]),
        Err(_) => 0,
    }
}

fn main(rt: HostRuntime) -> io::Result<()> {
    let mut out = [0; 65_536];
    match write_load(&mut out, given(&rt)) {
        Ok(filled) => rt.write_all(&out[..filled]),
        Err(_) => { eprintln!(rt; "load: the one argument is a seed, 1 to 4294967295") }
    }
}

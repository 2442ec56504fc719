// The events of a station script, one after another.
use ld2410::Command;
use replay_io::argument::u16_at;
use replay_io::commands::command_in;

// An event on a session.
#[derive(Clone, Copy)]
pub enum Event<'a> {
    // Sends the command into a buffer of `len` bytes, each of which is `fill` before.
    Send { command: Command, len: u8, fill: u8 },
    // Hands over the frame that the bytes are.
    Receive(&'a [u8]),
    // Gives up the wait.
    GiveUp,
}

// A station script. Its events come one after another, up to one that is cut short or has no meaning.
#[derive(Drop)]
pub struct Script<'a>(pub &'a [u8]);

impl<'a> Iterator for Script<'a> {
    ghost use Rattle.std.specs.Prelude.{length};
    ghost use Rattle.std.specs.Iterator.{at_most};

    type Item = Event<'a>;

    ghost remaining = { λ s. at_most (length s.0.now) };

    fn next(&mut self) -> Option<Event<'a>> {
        let (number, after) = self.0.split_first()?;
        let (event, left) = match *number {
            0 => {
                let (bytes, left) = after.split_at_checked(8)?;
                let command = command_in(bytes)?;
                let send = Event::Send {
                    command,
                    len: bytes[6],
                    fill: bytes[7],
                };
                (send, left)
            }
            1 => {
                let (bytes, left) = after.split_at_checked(2 + u16_at(after, 0) as usize)?;
                (Event::Receive(&bytes[2..]), left)
            }
            2 => (Event::GiveUp, after),
            _ => return None,
        };
        self.0 = left;
        Some(event)
    }
}

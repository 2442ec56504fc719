// A conversation with a module, from `EnableConfig` to `EndConfig`, as a station holds it: a session, and beside it a
// parser of what the module sends, which comes from standard input. The output has each command as it is sent, and
// under it the effect of each frame that came. The file stdout beside src/ has what request 2 and the maker's documents
// say, written by hand.

#![tactic(auto)]

use counting::read_full;
use ld2410::{Command, Gate, Parser, ReceiveResult, Session};
use std::{io, slice};
use text::Hex;

mod text;

// The commands of a conversation, in turn.
const COMMANDS: [Command; 5] = [
    Command::EnableConfig,
    Command::ReadParameters,
    Command::SetMaxGates {
        moving: 8,
        stationary: 8,
        no_one_secs: 5,
    },
    Command::SetSensitivity {
        gate: Gate::Index(3),
        moving: 40,
        stationary: 40,
    },
    Command::EndConfig,
];

// The station: its parser and its session, and the module's bytes that it has not taken.
#[derive(Drop)]
struct Station<'a> {
    parser: Parser,
    session: Session,
    bytes: slice::Iter<'a, u8>,
}

impl Station<'_> {
    // Holds a conversation: sends each command in turn.
    fn converse(&mut self, rt: &impl Print) -> io::Result<()> {
        for command in COMMANDS {
            self.exchange(rt, command)?;
        }
        Ok(())
    }

    // Sends a command, and hands over the frames that come, up to the one that ends the wait.
    fn exchange(&mut self, rt: &impl Print, command: Command) -> io::Result<()> {
        let mut out = [0u8; 30];
        let sent = self.session.send(command, &mut out);
        self.session = sent.session;
        match sent.answer {
            Ok(n) => {
                println!(rt; "sent{}", Hex(&out[..n]))?;
                self.listen(rt)
            }
            Err(e) => println!(rt; "refused {}", e.number()),
        }
    }

    // Feeds what the module sends, and hands over each frame as it comes, until one ends the wait. If no more comes, it
    // gives up the wait.
    fn listen(&mut self, rt: &impl Print) -> io::Result<()> {
        for byte in self.bytes.by_ref() {
            let Some(frame) = self.parser.feed(*byte) else {
                continue;
            };
            let received = self.session.receive(Some(frame));
            self.session = received.session;
            if let ReceiveResult::Ended(ok) = received.answer {
                return text::ended(rt, ok, frame, &self.parser.buf);
            }
            text::passed(rt, frame)?;
        }
        self.session = self.session.give_up();
        println!(rt; "given up")
    }
}

// Holds three conversations. In the first the module answers as the documents print it, with two reports and two bytes
// of noise between. In the second it does not open. In the third a command fails, the same command's success comes
// late, and then nothing but the front of a frame.
fn main(rt: HostRuntime) -> io::Result<()> {
    let mut input = [0u8; 4096];
    let n = read_full(&mut rt.stdin(), &mut input);
    let mut station = Station {
        parser: Parser::new(),
        session: Session::new(),
        bytes: input[..n].iter(),
    };
    for _ in 0..3 {
        station.converse(&rt)?;
    }
    Ok(())
}

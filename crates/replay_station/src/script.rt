// Op 20: a station script, a row of events on one session, from closed. Each event puts a line, which ends with the
// session.
use crate::events::{Event, Script};
use ld2410::{Command, Frame, ReceiveResult, Session};
use replay_io::line::Text;

// The longest buffer that a command is sent into.
const LONGEST: usize = 255;

// Makes the events of a script, up to one that is cut short or has no meaning.
pub fn run(out: &mut Text, op: u8, script: &[u8]) {
    let mut session = Session::new();
    for event in Script(script) {
        out.op(op);
        session = make(out, session, event);
        out.number(state_of(session));
        out.number(session.awaited().unwrap_or(0));
        out.end();
    }
}

// Makes an event, and puts its answer. Returns the session after it.
fn make(out: &mut Text, session: Session, event: Event) -> Session {
    match event {
        Event::Send { command, len, fill } => {
            let mut buffer = [fill; LONGEST];
            send(out, session, command, &mut buffer[..usize::from(len)])
        }
        Event::Receive(bytes) => receive(out, session, bytes),
        Event::GiveUp => session.give_up(),
    }
}

// Sends the command into a buffer, and puts the refusal, the bytes written or needed, and the buffer.
fn send(out: &mut Text, session: Session, command: Command, buffer: &mut [u8]) -> Session {
    let sent = session.send(command, buffer);
    let (refusal, count) = match sent.answer {
        Ok(count) => (0, count),
        Err(error) => (error.number(), error.needed()),
    };
    out.number(refusal);
    out.number(count);
    out.numbers(buffer);
    sent.session
}

// Hands over the frame that the bytes are, and puts whether it ended the wait, and whether `ok` was on.
fn receive(out: &mut Text, session: Session, bytes: &[u8]) -> Session {
    let received = session.receive(Frame::parse(bytes).ok());
    let (ended, ok) = match received.answer {
        ReceiveResult::Passed => (false, false),
        ReceiveResult::Ended(ok) => (true, ok),
    };
    out.numbers(&[ended, ok]);
    received.session
}

// Returns the number of a state.
fn state_of(session: Session) -> u8 {
    match session {
        Session::Closed => 0,
        Session::Opening => 1,
        Session::Open => 2,
        Session::Waiting(_) => 3,
        Session::Closing => 4,
    }
}

// A session, one conversation with the module: it hands over one command at a time, and says when it is acknowledged.
//
// A session is taken and returned by value: with the command that it waits for, it has 8 bytes.

#![tactic(auto)]

mod parts;
mod receiving;
mod sending;

ghost use Rattle.std.specs.Prelude.{◌≡◌, eqb};
ghost use Rattle.command.specs.Command.{word_of};
ghost use Rattle.session.specs.Returned.{session_number, session_needed};
ghost use Rattle.session.specs.Session.{awaited_word, is_busy, give_up_of};
ghost use Rattle.session.specs.Machine.{give_up, gave_up, ask, awaiting};
ghost use Rattle.session.specs.Claims.{Called, AnyRun, AnySession, OpensAndCloses};
ghost use Rattle.session.specs.declared.Session.TheVariants as Session;
ghost use Rattle.session.specs.declared.SessionError.TheVariants as Why;

use command::Command;
pub use parts::{FrameParts, Handover};
use refusal::Error;
use wire::word;

// The state of the conversation. `Waiting` has the command whose acknowledgement it waits for.
#[derive(Clone, Copy)]
pub enum Session {
    Closed,
    Opening,
    Open,
    Waiting(Command),
    Closing,
}

// The reasons why a command is not sent.
#[derive(Clone, Copy)]
pub enum SessionError {
    // 7: a command other than `EnableConfig` in a closed session.
    NotOpen,
    // 8: any command while opening, waiting or closing.
    Busy,
    // 2 or 4: what the encoder refuses.
    Encoding(Error),
}

// The session after a command, and the answer: the number of bytes of its frame in the buffer, or why it is not sent.
#[derive(Clone, Copy)]
pub struct Sent {
    pub session: Session,
    pub answer: Result<usize, SessionError>,
}

// The effect of a frame: it passed through, or it ended the wait, with `ok` on or off. It stays an enum, since an
// `Option<bool>` would not say which of its values means that nothing ended.
#[derive(Clone, Copy)]
pub enum ReceiveResult {
    Passed,
    Ended(bool),
}

// The session after a frame, and the answer. It and `Sent` say by their names which call they answer.
#[derive(Clone, Copy)]
pub struct Received {
    pub session: Session,
    pub answer: ReceiveResult,
}

impl SessionError {
    // Returns the refusal's number: 7, 8, or the encoder's.
    pub fn number(self) -> u8
        ensures numbered { result ≡ session_number self }
    {
        match self {
            SessionError::NotOpen => 7,
            SessionError::Busy => 8,
            SessionError::Encoding(e) => e.number(),
        }
    }

    // Returns the bytes needed, with number 4; else 0.
    pub fn needed(self) -> usize
        ensures told { result ≡ session_needed self }
    {
        match self {
            SessionError::NotOpen | SessionError::Busy => 0,
            SessionError::Encoding(e) => e.needed(),
        }
    }
}

impl From<Error> for SessionError {
    ghost from_gives = { λ error why. why ≡ Why.Encoding error };

    // Returns the reason why a command that the encoder refuses is not sent.
    fn from(error: Error) -> SessionError
        ensures told { result ≡ Why.Encoding error }
    {
        SessionError::Encoding(error)
    }
}

impl Session {
    // Returns a closed session, which answers any calls and frames as request 2's machine does (specs/Machine.antt).
    pub fn new() -> Self
        ensures made { result ≡ Session.Closed }
        ensures runs { AnyRun result }
        ensures any { AnySession }
        ensures opens { OpensAndCloses result }
    {
        Session::Closed
    }

    // Returns the word whose acknowledgement ends the wait, if one is awaited.
    pub fn awaited(self) -> Option<u16>
        ensures told { result ≡ awaited_word self }
        ensures called { Called self ask self (awaiting result) }
    {
        match self {
            Session::Closed | Session::Open => None,
            Session::Opening => Some(word::ENABLE_CONFIG),
            Session::Waiting(command) => Some(command.word()),
            Session::Closing => Some(word::END_CONFIG),
        }
    }

    // Tests whether a word is awaited.
    pub(crate) fn is_busy(self) -> bool
        ensures tested { result ≡ is_busy self }
    {
        self.awaited().is_some()
    }

    // Gives up a wait, which closes the session; without a wait nothing changes.
    #[tactic(auto, unfolding(crate::specs::Session::give_up_of))]
    pub fn give_up(self) -> Self
        ensures told { result ≡ give_up_of self }
        ensures called { Called self give_up result gave_up }
    {
        if self.is_busy() {
            return Session::Closed;
        }
        self
    }
}

// Tests whether a command has the word.
pub(crate) fn has_word(command: Command, word: u16) -> bool
    ensures tested { result ≡ eqb (word_of command) word }
{
    command.word() == word
}

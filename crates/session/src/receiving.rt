// Handing over a frame: whether it ends the wait, and the session after it.
ghost use Rattle.std.specs.Prelude.{◌≡◌};
ghost use Rattle.session.specs.Session.{receive_of, after_ack, after_success};
ghost use Rattle.session.specs.Machine as Machine;
ghost use Rattle.session.specs.Machine.{received};
ghost use Rattle.session.specs.Claims.{Called};

use super::{Handover, ReceiveResult, Received, Session, has_word};
use command::Command;
use frame::Frame;
use wire::word;

impl Session {
    // Hands over what the parser answers, or a frame in its parts: the acknowledgement of the awaited word ends the
    // wait, and any other frame passes through, as no frame does.
    #[tactic(auto, unfolding(crate::specs::Session::receive_of))]
    pub fn receive<F: Handover>(self, frame: F) -> Received
        ensures told { result ≡ receive_of self (F.meaning frame) }
        ensures called { Called self (Machine.frame (F.meaning frame)) result.session (received result.answer) }
    {
        match frame.to_frame() {
            Some(Frame::Ack(ack)) if self.awaited() == Some(ack.word) => Received {
                session: self.acknowledged(ack.ok),
                answer: ReceiveResult::Ended(ack.ok),
            },
            _ => Received {
                session: self,
                answer: ReceiveResult::Passed,
            },
        }
    }

    // Returns the session after the awaited acknowledgement.
    fn acknowledged(self, ok: bool) -> Self
        ensures told { result ≡ after_ack self ok }
    {
        match self {
            Session::Closed => Session::Closed,
            Session::Opening => if ok { Session::Open } else { Session::Closed },
            Session::Open => Session::Open,
            Session::Waiting(command) => if ok {
                Session::after_success(command)
            } else {
                Session::Open
            },
            Session::Closing => if ok { Session::Closed } else { Session::Open },
        }
    }

    // Returns the session after a success of the awaited command.
    fn after_success(command: Command) -> Self
        ensures told { result ≡ after_success command }
    {
        if has_word(command, word::RESTART) {
            return Session::Closed;
        }
        Session::Open
    }
}

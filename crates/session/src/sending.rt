// Sending a command: the session's tests, in request 2's order, then the encoder.
ghost use Rattle.std.specs.Prelude.{◌≡◌, length};
ghost use Rattle.session.specs.Session.{needs_open, after_sending, answer_of, send_of, buffer_of};
ghost use Rattle.session.specs.Returned.{returned_send};
ghost use Rattle.session.specs.Machine as Machine;
ghost use Rattle.session.specs.Machine.{sent};
ghost use Rattle.session.specs.Claims.{Called, SendCauses, FarthestSent};

use super::{Sent, Session, SessionError, has_word};
use command::Command;
use wire::word;

impl Session {
    // Sends a command: encodes it into the front of `out`, and returns the number of bytes written. Refuses with 8
    // while a word is awaited, then with 7 a command other than `EnableConfig` in a closed session, then as the encoder
    // does. A refused command changes neither the session nor the buffer.
    #[tactic(auto, unfolding(crate::specs::Session::send_of))]
    pub fn send(self, command: Command, out: &mut [u8]) -> Sent
        ensures told { result ≡ send_of self command (length out.old) }
        ensures left { out.new ≡ buffer_of self command out.old }
        ensures causes { SendCauses self command (length out.old) result.answer }
        ensures called { Called self (Machine.send command out.old) result.session
            (sent (returned_send result.answer) out.new) }
        ensures farthest { FarthestSent self command result.answer }
    {
        let answer = self.encode(command, out);
        let session = match answer {
            Ok(_) => Session::after(command),
            Err(_) => self,
        };
        Sent { session, answer }
    }

    // Makes the session's tests, and encodes the command if it may be sent.
    #[tactic(auto, unfolding(crate::specs::Session::answer_of, crate::specs::Session::buffer_of))]
    fn encode(self, command: Command, out: &mut [u8]) -> Result<usize, SessionError>
        ensures told { result ≡ answer_of self command (length out.old) }
        ensures left { out.new ≡ buffer_of self command out.old }
    {
        if self.is_busy() {
            return Err(SessionError::Busy);
        }
        if self.needs_open(command) {
            return Err(SessionError::NotOpen);
        }
        Ok(command.encode(out)?)
    }

    // Tests whether the session is closed, and the command is another than `EnableConfig`.
    fn needs_open(self, command: Command) -> bool
        ensures tested { result ≡ needs_open self command }
    {
        matches!(self, Session::Closed) && !has_word(command, word::ENABLE_CONFIG)
    }

    // Returns the session after the command is sent.
    fn after(command: Command) -> Self
        ensures told { result ≡ after_sending command }
    {
        if has_word(command, word::ENABLE_CONFIG) {
            return Session::Opening;
        }
        if has_word(command, word::END_CONFIG) {
            return Session::Closing;
        }
        Session::Waiting(command)
    }
}

// What is handed over: the answer of a feed, or a frame in document 01's parts, a kind beside a report and an
// acknowledgement.
ghost use Rattle.std.specs.Prelude.{◌≡◌, Option};
ghost use Rattle.frame.specs.declared.Frame.{Frame};
ghost use Rattle.session.specs.Parts.{frame_in, ReportPasses};
ghost use Rattle.session.specs.Session.{receive_of};
ghost use Rattle.session.specs.Machine as Machine;
ghost use Rattle.session.specs.Machine.{received};
ghost use Rattle.session.specs.Claims.{Called};

use super::{Received, Session};
use ack::Ack;
use frame::Frame;
use report::Report;
use wire::Kind;

// What is a frame, or none.
pub trait Handover: Copy {
    // The frame that it is, if it is one.
    ghost meaning: { Self → Option Frame };

    // Returns the frame that it is, if it is one.
    fn to_frame(self) -> Option<Frame>
        ensures meant { result ≡ meaning self };
}

// The answer of a feed.
impl Handover for Option<Frame> {
    ghost meaning = { λ frame. frame };

    fn to_frame(self) -> Option<Frame> {
        self
    }
}

impl Handover for FrameParts {
    ghost meaning = { frame_in };

    fn to_frame(self) -> Option<Frame> {
        self.frame()
    }
}

// A frame in its parts. What the kind does not name has no meaning; without a kind there is no frame.
#[derive(Clone, Copy)]
pub struct FrameParts {
    pub kind: Option<Kind>,
    pub report: Report,
    pub ack: Ack,
}

impl FrameParts {
    // Returns the frame that the parts are, if they have a kind.
    pub fn frame(self) -> Option<Frame>
        ensures meant { result ≡ frame_in self }
    {
        match self.kind? {
            Kind::Report => Some(Frame::Report(self.report)),
            Kind::Command => Some(Frame::Ack(self.ack)),
        }
    }
}

impl Session {
    // Hands over a frame in its parts, as `receive` does the frame that they are. A report passes through, whatever
    // acknowledgement stands beside it.
    pub fn receive_parts(self, parts: FrameParts) -> Received
        ensures told { result ≡ receive_of self (frame_in parts) }
        ensures called { Called self (Machine.frame (frame_in parts)) result.session (received result.answer) }
        ensures passes { ReportPasses self parts result }
    {
        self.receive(parts)
    }
}

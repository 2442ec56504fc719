// The refusals of a call with document 01's numbers, and the checks that give them, in its order.

#![tactic(auto)]

ghost use Rattle.std.specs.Prelude.{◌≡◌};
ghost use Rattle.refusal.specs.Refusal.{number_of, needed_of, refusal_of};
ghost use Rattle.refusal.specs.Check.{error_of};

// The refusals of a call.
#[derive(Clone, Copy, PartialEq, Eq)]
pub enum Error {
    // A layout that does not fit, another command's acknowledgement, a short payload.
    InvalidFormat,
    // An unknown report type; a command's gate or sensitivity that is too large; a farthest gate of 0 or 1.
    Unsupported,
    // The module acknowledged with a failure.
    Hardware,
    // The output is shorter than the frame, which takes `needed` bytes.
    BufferTooSmall { needed: usize },
    // A command's frame to whose bytes no command encodes.
    UnknownCommand,
    // A value that no reader gives, or that is too long for the writer.
    Unrepresentable,
}

// The checks of a frame (F), of a report's data (R) and of an acknowledgement's data (A), in the order of document 01.
#[derive(Clone, Copy, PartialEq, Eq)]
pub enum Check {
    F1,
    F2,
    F3,
    F4,
    R1,
    R2,
    R3,
    R4,
    R5,
    R6,
    R7,
    R8,
    A1,
    A2,
}

impl Error {
    // Returns the number that document 01 gives to the refusal, 1 to 6.
    pub fn number(self) -> u8
        ensures numbered { result ≡ number_of self }
    {
        match self {
            Error::InvalidFormat => 1,
            Error::Unsupported => 2,
            Error::Hardware => 3,
            Error::BufferTooSmall { needed: _ } => 4,
            Error::UnknownCommand => 5,
            Error::Unrepresentable => 6,
        }
    }

    // Returns the bytes needed, with number 4; else 0.
    pub fn needed(self) -> usize
        ensures told { result ≡ needed_of self }
    {
        match self {
            Error::BufferTooSmall { needed } => needed,
            Error::InvalidFormat
            | Error::Unsupported
            | Error::Hardware
            | Error::UnknownCommand
            | Error::Unrepresentable => 0,
        }
    }
}

impl From<Check> for Error {
    ghost from_gives = { λ check error. error ≡ error_of check };

    // Returns the refusal that a reader gives if this check is the first that fails.
    fn from(check: Check) -> Error
        ensures refused { result ≡ error_of check }
    {
        match check {
            Check::R6 => Error::Unsupported,
            Check::F1
            | Check::F2
            | Check::F3
            | Check::F4
            | Check::R1
            | Check::R2
            | Check::R3
            | Check::R4
            | Check::R5
            | Check::R7
            | Check::R8
            | Check::A1
            | Check::A2 => Error::InvalidFormat,
        }
    }
}

// Returns the number of the refusal in an answer, or 0 if nothing is refused.
pub fn refusal_number<T: Copy>(answer: Result<T, Error>) -> u8
    ensures numbered { result ≡ refusal_of answer }
{
    match answer {
        Ok(_) => 0,
        Err(error) => error.number(),
    }
}

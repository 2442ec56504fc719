// The front door of the LD2410's serial link: what a user of the link names, and nothing else. Each name is declared in
// its own crate; what else a crate declares is for other crates, and no entry point.

#![tactic(auto)]

// Sizes and command words.
pub use wire::{ACK_BIT, GATES, Kind, MAX_DATA, MAX_EXTRA, MAX_FRAME, word};

// Refusals.
pub use refusal::{Error, refusal_number};

// Reports.
pub use engineering::{Engineering, ExtraBytes};
pub use report::{Report, Target};
pub use target_state::TargetState;
pub use wire::GateValues;

// Acknowledgements, and what they carry.
pub use ack::{Ack, Span};
pub use reply::{EnableConfig, FirmwareVersion, Mac, Parameters};

// Whole frames, and the stream. `feed_at` and `feed_slice_at`, and those of the table engine, take a parser in its
// parts, with the buffer lent: a loop over them copies no buffer.
pub use feed::{Moved, Taken, feed_at, feed_slice_at, table_feed_at, table_feed_slice_at};
pub use frame::Frame;
pub use parser::{Fed, Parser};
pub use scan::{Scan, State, Stats};

// Commands.
pub use command::{Baud, Command, Gate};
pub use command_reader::read_command;

// The conversation.
pub use session::{FrameParts, Handover, ReceiveResult, Received, Sent, Session, SessionError};

// The added writers.
pub use ack_writer::write_ack;
pub use report_writer::write_report;

// The load of a seed, for tests.
pub use load_writer::{LoadError, MAX_LOAD, write_load};

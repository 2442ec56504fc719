// Both engines on one parser. Nothing calls these functions: their contracts pin the sentence "From any state and any
// byte, both engines give equal answers, counters and next state", of the very calls.
ghost use Rattle.std.specs.Prelude.{◌≡◌};
ghost use Rattle.stream.specs.Length.{link_limit};
ghost use Rattle.parser.specs.Feed.{feed_of, feed_slice_of};

use super::{Fed, Parser};
use feed::Taken;
use frame::Frame;

// What the two engines give back, each with the parser and its counters afterwards.
#[derive(Clone, Copy)]
struct Both<T> {
    branches: T,
    tables: T,
}

// Feeds one byte to both engines, each on the same parser.
fn fed_by_both(parser: Parser, byte: u8) -> Both<Fed<Option<Frame>>>
    ensures fed { result.branches ≡ feed_of link_limit parser byte }
    ensures equal { result.tables ≡ result.branches }
{
    Both {
        branches: parser.fed(byte),
        tables: parser.table_fed(byte),
    }
}

// Feeds a slice to both engines, each on the same parser.
fn fed_slice_by_both(parser: Parser, bytes: &[u8]) -> Both<Fed<Taken>>
    ensures fed { result.branches ≡ feed_slice_of link_limit parser bytes.now }
    ensures equal { result.tables ≡ result.branches }
{
    Both {
        branches: parser.fed_slice(bytes),
        tables: parser.table_fed_slice(bytes),
    }
}

// Bytes fed into a lent buffer, one or a slice: a frame that ended is decoded and counted.

#![tactic(auto)]

mod body;
mod counts;
mod engines;
mod feeding;
mod lookup;
mod run;
mod scans;

pub use engines::Engine;
pub use feeding::{
    Moved, Taken, feed_at, feed_by, feed_slice_at, feed_slice_by, table_feed_at,
    table_feed_slice_at,
};
pub use lookup::Tables;
pub use run::Branches;

// Changes of the counters, steps that end no frame, and a byte tried as the first of a header.
ghost use Rattle.std.specs.Prelude.{◌≡◌};
ghost use Rattle.scan.specs.Start.{continued, dropping, abandoned, start_of, counted};
ghost use Rattle.feed.specs.States.{given_up};

use scan::{Scan, State, Stats, Stepped, hunting};
use wire::{Kind, bump};

// Counts a frame in progress that is given up after `consumed` bytes.
#[tactic(auto, unfolding(scan::specs::Start::abandoned))]
pub(crate) fn abandon(stats: Stats, consumed: usize) -> Stats
    ensures counted { result ≡ abandoned stats consumed }
{
    Stats {
        resyncs: bump(stats.resyncs, 1),
        dropped: bump(stats.dropped, consumed),
        ..stats
    }
}

// Counts a frame that is given up after `taken` bytes, if there are any.
pub(crate) fn given_up(stats: Stats, taken: usize) -> Stats
    ensures counted { result ≡ given_up stats taken }
{
    if taken == 0 {
        return stats;
    }
    abandon(stats, taken)
}

// Counts a stray byte.
pub(crate) fn stray(stats: Stats) -> Stats
    ensures counted { result ≡ dropping stats 1 }
{
    Stats {
        dropped: bump(stats.dropped, 1),
        ..stats
    }
}

// Counts a whole frame, by whether it decodes.
pub(crate) fn count(stats: Stats, decodes: bool) -> Stats
    ensures counted { result ≡ counted decodes stats }
{
    if decodes {
        Stats {
            frames: bump(stats.frames, 1),
            ..stats
        }
    } else {
        Stats {
            malformed: bump(stats.malformed, 1),
            ..stats
        }
    }
}

// Returns a step that ends no frame.
pub(crate) fn continued(scan: Scan, stats: Stats) -> Stepped
    ensures stepped { result ≡ continued scan stats }
{
    Stepped {
        scan,
        stats,
        ended: None,
    }
}

// Treats `byte` as a possible first header byte.
#[tactic(auto, unfolding(scan::specs::Start::start_of))]
pub(crate) fn start(stats: Stats, byte: u8) -> Stepped
    ensures started { result ≡ start_of stats byte }
{
    match Kind::starting_with(byte) {
        // Written out: by `in_header` a byte F4 takes 40 instructions in place of 25 (crates/count).
        Some(kind) => Stepped {
            scan: Scan {
                state: State::Header,
                kind,
                matched: 1,
                len: 0,
                pos: 0,
            },
            stats,
            ended: None,
        },
        None => continued(hunting(), stray(stats)),
    }
}

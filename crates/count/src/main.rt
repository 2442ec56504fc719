// Counts what standard input holds: feeds it to a fresh parser, up to its end or a failed read, and prints one line,
// `frames resyncs dropped malformed unfinished`. The input may have any size: it is read 4,096 bytes at a time.

#![tactic(auto)]

use counting::{print_counts, read_all};

fn main(rt: HostRuntime) {
    print_counts(&mut rt.stdout(), read_all(&mut rt.stdin()));
}

// Bytes to try: streams, runs of calls and commands of document 01, what document 02 adds to them, and its sessions and
// loads, all proved over the definitions; and walks of the table engine. The crate has no code: the functions here are
// empty, and their contracts pin the theorems of specs/Claims.antt.

#![tactic(auto)]

ghost use Rattle.cases.specs.Claims.{AllHold, AllWalk};

// Pins that every row of the table holds.
fn all_cases()
    ensures hold { AllHold }
{}

// Pins that every walk of the table engine holds.
fn all_walks()
    ensures hold { AllWalk }
{}

// Demand 3 of document 01 (specs/Fulfilled.antt) for any parser that divides a stream, whatever module it reads, and
// what follows from it. The crate has definitions and laws, and no code: the crate `parser` pins the demand for the
// LD2410, `ld2450_parser` for the LD2450. The function here is empty: its contract pins what calls and their stretches
// are.

#![tactic(auto)]

ghost use Rattle.engine.specs.Claims.{AnyCall, HistoryAppend, StretchesJoined, StretchOfCall};

// Pins what calls do. `any`: a call may pass any bytes; only a reset ends a stretch. `append`: calls go on from what
// earlier ones left. `joined`, `stretch`: no byte is lost between stretches, and each call lies in one.
fn call_claims()
    ensures any { AnyCall }
    ensures append { HistoryAppend }
    ensures joined { StretchesJoined }
    ensures stretch { StretchOfCall }
{}

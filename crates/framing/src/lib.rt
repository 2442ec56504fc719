// The division of a stream, for any choice of the strings that are open and of those that are whole frames. The crate
// has definitions and laws, and no code: the crates `stream` and `parser` pin what follows for the LD2410,
// `ld2450_parser` for the LD2450.

#![tactic(auto)]

// What bytes do to a scan: the step of one byte, and the run of a slice, without reading what the frames hold. The
// crate has definitions and laws; the crate `feed` has the code.

#![tactic(auto)]

// The bytes of document 01's "Bytes to try" that are about readers.

// Case B, a whole frame: both targets, 120 cm at 60, 150 cm at 45, detection 200 cm.
pub const B: [u8; 23] = *b"\
    \xF4\xF3\xF2\xF1\x0D\x00\
    \x02\xAA\x03\x78\x00\x3C\x96\x00\x2D\xC8\x00\x55\x00\
    \xF8\xF7\xF6\xF5";

// The data of B.
pub const B_DATA: [u8; 13] = *b"\x02\xAA\x03\x78\x00\x3C\x96\x00\x2D\xC8\x00\x55\x00";

// B's data with a type that no report has: R6.
pub const TYPE_3: [u8; 13] = *b"\x03\xAA\x03\x78\x00\x3C\x96\x00\x2D\xC8\x00\x55\x00";

// The same with a basic byte less: R5, which comes before R6.
pub const TYPE_3_SHORT: [u8; 12] = *b"\x03\xAA\x03\x78\x00\x3C\x96\x00\x2D\xC8\x55\x00";

// An engineering report's data with `max_moving_gate` 8, `max_stationary_gate` 0: nine energies and one.
pub const MAX_GATE_8: [u8; 25] = *b"\
    \x01\xAA\x03\x78\x00\x3C\x96\x00\x2D\xC8\x00\
    \x08\x00\x01\x02\x03\x04\x05\x06\x07\x08\x09\x0A\
    \x55\x00";

// The same with `max_moving_gate` 9, and the ten energies that it announces: R8.
pub const MAX_GATE_9: [u8; 26] = *b"\
    \x01\xAA\x03\x78\x00\x3C\x96\x00\x2D\xC8\x00\
    \x09\x00\x01\x02\x03\x04\x05\x06\x07\x08\x09\x0A\x0B\
    \x55\x00";

// An acknowledgement of 00FF with status 1.
pub const FAILED_ACK: [u8; 4] = *b"\xFF\x01\x01\x00";

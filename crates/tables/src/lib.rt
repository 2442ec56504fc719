// The two tables of the table engine: the class of each byte, and the next state by matching state and class.
//
// A constant is built anew wherever it is named. So a feed calls each function once, and lends what it returns.

#![tactic(auto)]

mod class_table;

ghost use Rattle.tables.specs.Matching.{Matching, on_byte};
ghost use Rattle.tables.specs.Table.{Nexts};

pub use class_table::classes;

// The next state: a row for each matching state, a column for each class. Report header, command header, report tail
// and command tail have four rows each, for 0 to 3 bytes matched. The states 16, 20, 24 and 28 are after all four.
const NEXT: [[u8; 17]; 16] = [
    [1, 0, 0, 0, 5, 0, 0, 0, 0, 0, 0, 0, 0, 0, 0, 0, 0],
    [1, 2, 0, 0, 5, 0, 0, 0, 0, 0, 0, 0, 0, 0, 0, 0, 0],
    [1, 0, 3, 0, 5, 0, 0, 0, 0, 0, 0, 0, 0, 0, 0, 0, 0],
    [1, 0, 0, 16, 5, 0, 0, 0, 0, 0, 0, 0, 0, 0, 0, 0, 0],
    [1, 0, 0, 0, 5, 0, 0, 0, 0, 0, 0, 0, 0, 0, 0, 0, 0],
    [1, 0, 0, 0, 5, 6, 0, 0, 0, 0, 0, 0, 0, 0, 0, 0, 0],
    [1, 0, 0, 0, 5, 0, 7, 0, 0, 0, 0, 0, 0, 0, 0, 0, 0],
    [1, 0, 0, 0, 5, 0, 0, 20, 0, 0, 0, 0, 0, 0, 0, 0, 0],
    [1, 0, 0, 0, 5, 0, 0, 0, 9, 0, 0, 0, 0, 0, 0, 0, 0],
    [1, 0, 0, 0, 5, 0, 0, 0, 0, 10, 0, 0, 0, 0, 0, 0, 0],
    [1, 0, 0, 0, 5, 0, 0, 0, 0, 0, 11, 0, 0, 0, 0, 0, 0],
    [1, 0, 0, 0, 5, 0, 0, 0, 0, 0, 0, 24, 0, 0, 0, 0, 0],
    [1, 0, 0, 0, 5, 0, 0, 0, 0, 0, 0, 0, 13, 0, 0, 0, 0],
    [1, 0, 0, 0, 5, 0, 0, 0, 0, 0, 0, 0, 0, 14, 0, 0, 0],
    [1, 0, 0, 0, 5, 0, 0, 0, 0, 0, 0, 0, 0, 0, 15, 0, 0],
    [1, 0, 0, 0, 5, 0, 0, 0, 0, 0, 0, 0, 0, 0, 0, 28, 0],
];

// Returns the table of the next states.
pub fn nexts() -> [[u8; 17]; 16]
    ensures entries { Nexts result }
    ensures matching { Matching (on_byte result) }
{
    NEXT
}

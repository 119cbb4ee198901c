// The sizes of document 02, job 1. Each stands here once; specs/Limits.antt has the same numbers.

// Codes of an input word.
pub const INPUT: usize = 63;
// Codes of an output word.
pub const OUTPUT: usize = 127;
// Places of a cell: whether it has a mark, and one for each state.
pub const CELL: usize = transducer::limits::STATES + 1;
// Places of a row: a cell for each position in the output word, 0 to 127; 128 × 33 = 4,224.
pub const ROW: usize = (OUTPUT + 1) * CELL;

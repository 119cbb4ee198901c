// The sizes of the records of a table file, and of the longest file, in bytes: a letter, fields and the end each.
use records::field::COLUMNS;
use records::reading::MOST_FIELDS;
use transducer::limits;

// The header: four fields.
pub const HEADER: usize = 2 + 4 * COLUMNS;
// A state: one field.
pub const STATE: usize = 2 + COLUMNS;
// The longest transition.
pub const TRANSITION: usize = 2 + MOST_FIELDS * COLUMNS;
// The longest file: a header, every state as a start state and as a final state, and every transition with all its fields.
pub const MOST_BYTES: usize = HEADER
    + 2 * limits::STATES * STATE
    + limits::TRANSITIONS * TRANSITION;

// How long the file of a transducer is, counted before anything is written.
ghost use Rattle.std.specs.Prelude.{◌≡◌, length};
ghost use Rattle.transducer.specs.Valid.{Valid};
ghost use Rattle.tablewriter.specs.File.{size_of, all_outputs, write_of};

use records::writer::COLUMNS;
use transducer::{StateSet, Transducer, limits};

// The bytes of a record with one field, `S` or `F`: the letter, the field and the end.
const ONE_FIELD: usize = 2 + COLUMNS;
// The bytes of a record with four fields: `T`, and `L` without its output codes.
const FOUR_FIELDS: usize = 2 + 4 * COLUMNS;

// The byte count of the file of t.
pub fn file_length(t: Transducer) -> usize
    requires { Valid t }
    ensures { result ≡ length (write_of t) }
{
    let states = count_states(t.starts) + count_states(t.finals);
    let records = 1 + t.count as usize;
    FOUR_FIELDS * records + ONE_FIELD * states as usize + COLUMNS * count_outputs(t)
}

// How many states are in s.
pub fn count_states(s: StateSet) -> u16
    ensures { result ≡ size_of s }
{
    s.member.iter().filter(|inside| **inside).count() as u16
}

// How many output codes the transitions of t have.
fn count_outputs(t: Transducer) -> usize
    requires { Valid t }
    ensures { result ≡ all_outputs t }
{
    let transitions = &t.transitions[..t.count as usize];
    transitions.iter().map(|v| v.count as usize).sum()
}

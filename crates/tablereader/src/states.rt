// The records `S` and `F`: one state each, strictly rising.
ghost use Rattle.std.specs.Prelude.{◌≡◌, ◌+◌, ◌*◌, ◌≤◌};
ghost use Rattle.transducer.specs.Limits.{most_states};
ghost use Rattle.tablereader.specs.Record.{state_size, most_records};
ghost use Rattle.records.specs.Letters.{most_bytes};
ghost use Rattle.tablereader.specs.States.{state_record_of, states_from};

use crate::{FileRefusal, outcome_of, record};
use records::reading::{Number, Range};
use records::{reader, reading};
use transducer::StateSet;

// The states that were read, and whether a record was refused.
#[derive(Clone, Copy)]
pub struct States {
    pub outcome: Result<(), FileRefusal>,
    pub set: StateSet,
}

// Reads `count` records from the place `start`, the first of them record `first`. A state is below n, and above the one before it.
// The place, n, the count and the number of the first record stay parameters, here and in `transitions`: `states_from` has each by itself. No count is one
// of bytes.
pub fn read_states(text: &[u8], start: usize, letter: u8, n: u16, count: u16, first: u16) -> States
    requires { (start + state_size * count ≤ most_bytes) × (1 ≤ n) × (n ≤ most_states) × (first + count ≤ most_records) }
    ensures { result ≡ states_from count text.now letter n start first }
{
    let mut outcome = Ok(());
    let mut set = StateSet::empty();
    let mut low = 0;
    // `i` is of the record's place and of its number.
    for i in 0..count {
        let at = start + record::STATE * i as usize;
        let state = state_record(text, at, letter, n, low);
        outcome = outcome.and(outcome_of(state.fault, first + i));
        set = set.with(state.value as u8);
        low = state.value + 1;
    }
    States { outcome, set }
}

// The record at `at`, whose state must be below n and at least `low`. The record reader goes over it.
fn state_record(text: &[u8], at: usize, letter: u8, n: u16, low: u16) -> Number
    requires { (at + state_size ≤ most_bytes) × (1 ≤ n) }
    ensures { result ≡ state_record_of text.now letter n at low }
{
    let read = reader::read_one_field(text, at, letter);
    let range = Range {
        low: 0,
        high: n - 1,
        least: low,
    };
    let state = reading::in_range(read.field, range);
    Number {
        fault: read.letter.or(state.fault).or(read.end),
        value: state.value,
    }
}

// The records `L`: one transition each.
ghost use Rattle.std.specs.Prelude.{◌≡◌, ◌+◌, ◌*◌, ◌≤◌};
ghost use Rattle.transducer.specs.Limits.{most_states, most_transitions};
ghost use Rattle.tablereader.specs.Record.{transition_size, most_records};
ghost use Rattle.records.specs.Letters.{most_bytes};
ghost use Rattle.tablereader.specs.Transitions.{transition_record_of, transition_with, Small, transitions_from};

use crate::{FileRefusal, outcome_of};
use records::field::COLUMNS;
use records::reading::{MOST_FIELDS, Range, Record, number_at, read_record};
use transducer::{InputCode, OutputCode, Transition, limits};

// The transitions that were read, whether a record was refused, and the place past the last record.
#[derive(Clone, Copy)]
pub struct Transitions {
    pub outcome: Result<(), FileRefusal>,
    pub next: usize,
    pub transitions: [Transition; limits::TRANSITIONS],
}

// Reads `count` records from the place `start`, the first of them record `first`. The states are below n.
pub fn read_transitions(text: &[u8], start: usize, n: u16, count: u16, first: u16) -> Transitions
    requires count_bound { (start + transition_size * count ≤ most_bytes) × (1 ≤ n) × (n ≤ most_states) }
    requires count_le_most_transitions { (count ≤ most_transitions) × (first + count ≤ most_records) }
    ensures { result ≡ transitions_from count text.now n start first }
{
    let mut outcome = Ok(());
    let mut transitions = transducer::blank().transitions;
    let mut at = start;
    // `i` numbers the record, too.
    for i in 0..count {
        let one = transition_record(text, at, n);
        outcome = outcome.and(outcome_of(one.fault, first + i));
        transitions[i as usize] = transition_of(one.values);
        at = one.next;
    }
    Transitions {
        outcome,
        next: at,
        transitions,
    }
}

// The record at `at`. Its fourth field is looked at first: it says how many output codes there are to read.
fn transition_record(text: &[u8], at: usize, n: u16) -> Record
    requires { (at + transition_size ≤ most_bytes) × (1 ≤ n) }
    ensures { result ≡ transition_record_of text.now at n }
{
    let code = limits::CODE as u16;
    let state = Range::new(0, n - 1);
    let input = Range::new(0, code);
    let outputs = Range::new(0, limits::OUTPUTS as u16);
    let mut ranges = [Range::new(1, code); MOST_FIELDS];
    ranges[..4].copy_from_slice(&[state, state, input, outputs]);
    let count = number_at(text, at + 1 + 3 * COLUMNS, outputs);
    read_record(text, at, b'L', &ranges[..4 + count.value as usize])
}

// The transition of a record's values. Behind its output codes the values are 0, as the places of the transition are.
// Stays beside `line_in` of `held`, which takes bytes: one for both would need a trait for bytes and for numbers that are bytes, longer than the two.
fn transition_of(values: [u16; MOST_FIELDS]) -> Transition
    requires { Small values }
    ensures { result ≡ transition_with values }
{
    let mut output = [OutputCode(0); limits::OUTPUTS];
    for (j, code) in output.iter_mut().enumerate() {
        *code = OutputCode(values[4 + j] as u8);
    }
    Transition {
        from: values[0] as u8,
        to: values[1] as u8,
        input: InputCode(values[2] as u8),
        count: values[3] as u8,
        output,
    }
}

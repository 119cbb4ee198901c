// The reader of a table file (document 01, "The file"). It checks strictly from left to right, and a refusal leaves the blank transducer.
// The contract of `read` cites specs/Reader.antt, where the whole format is one definition; specs/Outcome.antt gives each answer its number.
// A refused check does not end the reading of a record or of a file (DECISIONS 01.10): the reading goes on, and of all refusals the first one counts. So
// the parts of a file have their outcomes beside what was read, and `read` alone hands over the one or the other.
#![tactic(auto)]

ghost use Rattle.std.specs.Prelude.{◌≡◌};
ghost use Rattle.tablereader.specs.Outcome.{before_records, outcome_for};
ghost use Rattle.tablereader.specs.Reader.{end_fault_of, read_of};

pub mod header;
pub mod record;
pub mod states;
pub mod transitions;

use transducer::refusals::Refusal;
use transducer::{StateSet, Transducer};

// Why a file is refused, and at which record. Records count from 0 for `T`.
#[derive(Clone, Copy, PartialEq, Eq)]
pub struct FileRefusal {
    pub refusal: Refusal,
    pub record: u16,
}

impl From<Refusal> for FileRefusal {
    ghost from_gives = { λ refusal r. r ≡ before_records refusal };

    // A refusal of what is not in the file has no record: its record's number is 0.
    fn from(refusal: Refusal) -> FileRefusal {
        FileRefusal { refusal, record: 0 }
    }
}

// Reads a table file.
pub fn read(text: &[u8]) -> Result<Transducer, FileRefusal>
    ensures { result ≡ read_of text.now }
{
    let counts = header::read_header(text);
    let starts = states::read_states(text, record::HEADER, b'S', counts.states, counts.starts, 1);
    let finals_at = record::HEADER + record::STATE * counts.starts as usize;
    let finals = states::read_states(
        text,
        finals_at,
        b'F',
        counts.states,
        counts.finals,
        1 + counts.starts,
    );
    let transitions_at = finals_at + record::STATE * counts.finals as usize;
    let first = 1 + counts.starts + counts.finals;
    let rest = transitions::read_transitions(
        text,
        transitions_at,
        counts.states,
        counts.transitions,
        first,
    );
    let end = end_fault(text, rest.next);
    outcome_of(counts.fault, 0)
        .and(starts.outcome)
        .and(finals.outcome)
        .and(rest.outcome)
        .and(outcome_of(end, first + counts.transitions))?;
    let start_set = starts.set;
    let final_set = finals.set;
    let transitions = rest.transitions;
    Ok(useful::keep(Transducer {
        states: counts.states as u8,
        starts: start_set,
        finals: final_set,
        count: counts.transitions,
        transitions,
        useful: StateSet::empty(),
    }))
}

// The refusal after the last record, which ends before `at`: bytes may follow. No length is checked: where nothing follows, the text is not longer
// than the longest file (specs/Longest.antt).
#[tactic(auto, unfolding(crate::specs::Reader::end_fault_of))]
fn end_fault(text: &[u8], at: usize) -> Option<Refusal>
    ensures { result ≡ end_fault_of text.now at }
{
    if at < text.len() {
        Some(Refusal::BytesFollow)
    } else {
        None
    }
}

// The outcome of a check of the record of a number.
// Stays a match: `map_or` with a closure is no plainer.
pub fn outcome_of(fault: Option<Refusal>, record: u16) -> Result<(), FileRefusal>
    ensures { result ≡ outcome_for fault «record» }
{
    match fault {
        None => Ok(()),
        Some(refusal) => Err(FileRefusal { refusal, record }),
    }
}

// The reading of a record that is described by ranges (specs/Reading.antt): its letter, a field for each range, and its end.
// A refused check does not end the reading (DECISIONS 01.10): what follows is read too, and the first fault counts. So what was read has its refusal
// beside it, and is no `Result`.
ghost use Rattle.std.specs.Prelude.{◌≡◌, ◌+◌, ◌≤◌, ◌<◌, ◌^◌, length};
ghost use Rattle.records.specs.Letters.{most_fields, record_size};
ghost use Rattle.records.specs.Reading.{range, in_range, number_at, record_at};

use crate::field::field_at;
use crate::reader::{END, RecordReader};
use transducer::limits;
use transducer::refusals::Refusal;

// The most fields of a record: four and the output codes of a transition.
pub const MOST_FIELDS: usize = 4 + limits::OUTPUTS;

// What a field must hold: a number from `low` to `high`, and at least `least` where it must rise.
#[derive(Clone, Copy)]
pub struct Range {
    pub low: u16,
    pub high: u16,
    pub least: u16,
}

// A number that was read, with its refusal, if it has one. A number that was refused is given the least value of its range.
#[derive(Clone, Copy)]
pub struct Number {
    pub fault: Option<Refusal>,
    pub value: u16,
}

// A record that was read: its first refusal, if it has one, the place past the record, and the numbers of its fields.
#[derive(Clone, Copy)]
pub struct Record {
    pub fault: Option<Refusal>,
    pub next: usize,
    pub values: [u16; MOST_FIELDS],
}

impl Range {
    // From `low` to `high`, where nothing must rise.
    pub fn new(low: u16, high: u16) -> Range
        ensures { result ≡ range low high }
    {
        Range {
            low,
            high,
            least: 0,
        }
    }
}

// Reads the record at `start`: the letter, a field for each range, and the record's end. The record reader goes over it.
pub fn read_record(text: &[u8], start: usize, letter: u8, ranges: &[Range]) -> Record
    requires { (length ranges.now ≤ most_fields) × (start + record_size (length ranges.now) < 2 ^ 64) }
    ensures { result ≡ record_at text.now start letter ranges.now }
{
    let mut reader = RecordReader::new(text, start);
    let mut fault = reader.byte(letter);
    let mut values = [0; MOST_FIELDS];
    for (i, range) in ranges.iter().enumerate() {
        let number = in_range(reader.field(), *range);
        fault = fault.or(number.fault);
        values[i] = number.value;
    }
    Record {
        fault: fault.or(reader.byte(END)),
        next: reader.at,
        values,
    }
}

// The number in the field at `at`, which must be in the range.
#[tactic(auto, unfolding(crate::specs::Reading::number_at))]
pub fn number_at(text: &[u8], at: usize, range: Range) -> Number
    ensures { result ≡ number_at text.now at range }
{
    in_range(field_at(text, at), range)
}

// The number of a field, which must be in the range.
pub fn in_range(field: Result<u16, Refusal>, range: Range) -> Number
    ensures { result ≡ in_range field range }
{
    let refused = |refusal| Number {
        fault: Some(refusal),
        value: range.low,
    };
    match field {
        Err(refusal) => refused(refusal),
        Ok(v) if v < range.low || range.high < v => refused(Refusal::OutOfRange),
        Ok(v) if v < range.least => refused(Refusal::NotRising),
        Ok(v) => Number {
            fault: None,
            value: v,
        },
    }
}

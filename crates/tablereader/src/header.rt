// The first record, `T`: how many states, start states, final states and transitions there are.
ghost use Rattle.std.specs.Prelude.{◌≡◌};
ghost use Rattle.tablereader.specs.Header.{Counted, header_of};

use records::reading;
use records::reading::Range;
use transducer::limits;
use transducer::refusals::Refusal;

// The counts that were read, with the record's refusal, if it has one.
#[derive(Clone, Copy)]
pub struct Header {
    pub fault: Option<Refusal>,
    pub states: u16,
    pub starts: u16,
    pub finals: u16,
    pub transitions: u16,
}

// The record at the beginning of the text.
pub fn read_header(text: &[u8]) -> Header
    ensures value { result ≡ header_of text.now }
    ensures counted { Counted result }
{
    let most = limits::STATES as u16;
    let ranges = [
        Range::new(1, most),
        Range::new(0, most),
        Range::new(0, most),
        Range::new(0, limits::TRANSITIONS as u16),
    ];
    let read = reading::read_record(text, 0, b'T', &ranges);
    let [states, starts, finals, transitions, ..] = read.values;
    Header {
        fault: read.fault,
        states,
        starts,
        finals,
        transitions,
    }
}

// The word test (document 02, job 1): whether an accepting path reads a given input word and writes a given output word. Its contract is
// specs/Tested.antt. The rows of `wordrows` follow one another, a row for each position in the input word; two are alive at a time.
#![tactic(auto)]

ghost use Rattle.std.specs.Prelude.{◌≡◌, true, ◌↔◌, ◌≤◌, length};
ghost use Rattle.transducer.specs.Codes.{all_codes};
ghost use Rattle.transducer.specs.Transition.{word_of, output_word_of};
ghost use Rattle.transducer.specs.Valid.{Valid};
ghost use Rattle.transducer.specs.Paths.{Relates};
ghost use Rattle.wordrows.specs.Limits.{most_output};
ghost use Rattle.wordtest.specs.Tested.{Tested};
ghost use Rattle.wordtest.specs.Nodes.{Arrives};

use closure::Closures;
use outputs::Outputs;
use product::machine::Machine;
use transducer::refusals::Refusal;
use transducer::{StateSet, Transducer, codes};
use wordrows::{Cells, Rows, limits};

// Whether some accepting path reads the word `input` and writes the word `output`; or a refusal.
pub fn accepts(t: Transducer, input: &[u8], output: &[u8]) -> Result<bool, Refusal>
    ensures { Tested t input.now output.now result }
{
    if !useful::accepted(t) {
        return Err(Refusal::Invalid);
    }
    if !((input.len() <= limits::INPUT) & (output.len() <= limits::OUTPUT)) {
        return Err(Refusal::WordsTooLong);
    }
    if !codes::all(input) {
        return Err(Refusal::NoInputCode);
    }
    if !codes::all(output) {
        return Err(Refusal::NoOutputCode);
    }
    Ok(related(t, input, output))
}

// The answer for words that are not refused: the search runs over the machine of t, what its transitions write, and the closures of its states.
#[inline(never)]
fn related(t: Transducer, input: &[u8], output: &[u8]) -> bool
    requires valid { Valid t }
    requires input_value { all_codes input.now ≡ true }
    requires output_len_bound { length output.now ≤ most_output }
    ensures { (result ≡ true) ↔ Relates t (word_of input.now) (output_word_of output.now) }
{
    let m = Machine::by_input(t);
    let written = Outputs::of(t);
    let closures = Closures::new(&m, &written);
    let rows = Rows::new(&m, &written, &closures, output);
    arrives(&rows, t.starts, t.finals, input)
}

// A code that no transition reads. Stays a number: as an Option it would be matched for each transition of the search, and the rows mean the same.
const NO_CODE: u16 = 255;

// Whether the search comes to the end of both words in a final state. Each row is closed and the next one entered; the last is closed with no code to read.
fn arrives(rows: &Rows, starts: StateSet, finals: StateSet, input: &[u8]) -> bool
    requires { all_codes input.now ≡ true }
    ensures { (result ≡ true)
        ↔ Arrives rows.now.m rows.now.written starts finals input.now rows.now.output }
{
    let mut here = rows.start(starts);
    for code in input {
        let mut next = Cells::blank();
        rows.sweep(u16::from(*code), &mut here, &mut next);
        here = next;
    }
    let mut beyond = Cells::blank();
    rows.sweep(NO_CODE, &mut here, &mut beyond);
    here.ends(finals, rows.end())
}

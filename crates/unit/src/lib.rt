// The library that a unit links: the documents' calls for C, over lists and numbers only. A table is lent as memory in which it is held (crate `held`).
// Each call returns 0, or its refusal; a refusal changes no list. A list of fixed size that is too short is refused before anything else. The contracts
// cite specs/Calls.antt; specs/Laws.antt says what they determine.
#![tactic(auto)]

ghost use Rattle.std.specs.Prelude.{◌≡◌};
ghost use Rattle.engine.specs.Engine as engine;
ghost use Rattle.transducer.specs.Refusals.{list_too_short};
ghost use Rattle.witness.specs.Showing.{buffers_of};
ghost use Rattle.answers.specs.Answers.{file_code};
ghost use Rattle.unit.specs.Calls as calls;
ghost use Rattle.unit.specs.Calls.{ReadGiven, WriteGiven, VerdictGiven, TranslationGiven, AcceptsGiven, StatesGiven, LookGiven, PairsGiven};
ghost use Rattle.unit.specs.Calls.{AppendGiven, RemoveGiven, JoinGiven, DifferenceGiven};

use held::SIZE;
use records::reading::MOST_FIELDS;
use tablereader::FileRefusal;
use transducer::limits::STATES;
use transducer::refusals::Refusal;
use transducer::{StateSet, Transducer};
use witness::Lent;

// The version of the calls, of their answers and of held tables: 2.0.
const VERSION: u32 = 131072;

// The version; a header of another does not fit this library.
#[unsafe(no_mangle)]
pub extern "C" fn yotselina_version() -> u32
    ensures { result ≡ calls.version }
{
    VERSION
}

// Reads a table file, and returns its refusal, or 0 where it is taken.
#[unsafe(no_mangle)]
pub extern "C" fn yotselina_check(file: &[u8]) -> u32
    ensures { result ≡ file_code file.now }
{
    answers::of_file(tablereader::read(file))
}

// Reads a table file; its table is held in `table`.
#[unsafe(no_mangle)]
pub extern "C" fn yotselina_read(file: &[u8], table: &mut [u8]) -> u32
    ensures { ReadGiven file.now table.old table.new result }
{
    if table.len() < SIZE {
        return too_short();
    }
    answers::give_table(table, tablereader::read(file))
}

// Writes the file of a held table to the front of `out`; the answer is its byte count.
#[unsafe(no_mangle)]
pub extern "C" fn yotselina_write(table: &[u8], out: &mut [u8], answer: &mut [u64]) -> u32
    ensures { WriteGiven table.now out.old out.new answer.old answer.new result }
{
    if answer.len() < answers::WRITE {
        return too_short();
    }
    if table.len() < SIZE {
        return too_short();
    }
    let t = held::table_in(table);
    let written = tablewriter::write(t, out);
    answers::give(answer, written.map(answers::one))
}

// Tests whether a held table is functional. A witness that it is not is put into the five buffers; the answer is the eight numbers of the verdict.
// Stays with a list for each part of a witness: C lends them so.
#[unsafe(no_mangle)]
pub extern "C" fn yotselina_verdict(
    table: &[u8],
    word: &mut [u8],
    path_a: &mut [u16],
    path_b: &mut [u16],
    output_x: &mut [u8],
    output_y: &mut [u8],
    answer: &mut [u64],
) -> u32
    ensures { VerdictGiven table.now
        (buffers_of word.old path_a.old path_b.old output_x.old output_y.old)
        (buffers_of word.new path_a.new path_b.new output_x.new output_y.new)
        answer.old answer.new
        result }
{
    if answer.len() < answers::VERDICT {
        return too_short();
    }
    if table.len() < SIZE {
        return too_short();
    }
    let t = held::table_in(table);
    let mut lent = Lent {
        word,
        path_a,
        path_b,
        output_x,
        output_y,
    };
    let verdict = functionality::decide(t, &mut lent);
    answers::give_verdict(answer, verdict)
}

// Writes the output of the word `input` by a held table to the front of `output`; the answer is its length.
#[unsafe(no_mangle)]
pub extern "C" fn yotselina_translate(
    table: &[u8],
    input: &[u8],
    output: &mut [u8],
    answer: &mut [u64],
) -> u32
    ensures { TranslationGiven table.now input.now
        output.old output.new answer.old answer.new
        result }
{
    if answer.len() < answers::TRANSLATE {
        return too_short();
    }
    if table.len() < SIZE {
        return too_short();
    }
    let t = held::table_in(table);
    let translated = translator::translate(t, input, output);
    answers::give(answer, translated.map(answers::one))
}

// Whether some accepting path of a held table reads the word `input` and writes the word `output`; the answer is 1 for yes, 0 for no.
#[unsafe(no_mangle)]
pub extern "C" fn yotselina_accepts(
    table: &[u8],
    input: &[u8],
    output: &[u8],
    answer: &mut [u64],
) -> u32
    ensures { AcceptsGiven table.now input.now output.now answer.old answer.new result }
{
    if answer.len() < answers::ACCEPTS {
        return too_short();
    }
    if table.len() < SIZE {
        return too_short();
    }
    let t = held::table_in(table);
    let accepted = wordtest::accepts(t, input, output);
    answers::give(answer, accepted.map(answers::yes))
}

// Puts a flag for each of transducer::limits::STATES states to the front of `flags`: whether it is useful.
#[unsafe(no_mangle)]
pub extern "C" fn yotselina_useful_states(table: &[u8], flags: &mut [u8]) -> u32
    ensures { StatesGiven table.now flags.old flags.new result }
{
    if table.len() < SIZE {
        return too_short();
    }
    let t = held::table_in(table);
    let found = useful::useful_states(t);
    answers::give_flags(flags, found.map(members))
}

// The panel's look: the flags that are kept. Nothing else of the memory is looked at: nothing is checked, and nothing is worked out.
#[unsafe(no_mangle)]
pub extern "C" fn yotselina_look(table: &[u8], flags: &mut [u8]) -> u32
    ensures { LookGiven table.now flags.old flags.new result }
{
    if table.len() < SIZE {
        return too_short();
    }
    let states = held::set_at(table, held::USEFUL_AT);
    answers::give_flags(flags, Ok(states.member))
}

// Puts a flag for each pair of states to the front of `flags`, at the pair's number: whether it is useful; the answer is u, how many are.
#[unsafe(no_mangle)]
pub extern "C" fn yotselina_useful_pairs(table: &[u8], flags: &mut [u8], answer: &mut [u64]) -> u32
    ensures { PairsGiven table.now flags.old flags.new answer.old answer.new result }
{
    if answer.len() < answers::PAIRS {
        return too_short();
    }
    if table.len() < SIZE {
        return too_short();
    }
    let t = held::table_in(table);
    let found = match pairs::useful_pairs(t) {
        Ok(found) => found,
        Err(refusal) => return refusal.number() as u32,
    };
    let set = found.set;
    let refusal = answers::give_flags(flags, Ok(set.member));
    if refusal != 0 {
        return refusal;
    }
    answers::give(answer, Ok([found.count as u64]))
}

// Appends the line whose numbers are `line` to a held table, behind its last, in place.
#[unsafe(no_mangle)]
pub extern "C" fn yotselina_append(table: &mut [u8], line: &[u8]) -> u32
    ensures { AppendGiven table.old line.now table.new result }
{
    if table.len() < SIZE {
        return too_short();
    }
    if line.len() < MOST_FIELDS {
        return too_short();
    }
    let t = held::table_in(table);
    let edited = edits::append(t, held::line_in(line));
    answers::give_table(table, on_file(edited))
}

// Removes the line number `number` of a held table, in place: those after it move down one.
#[unsafe(no_mangle)]
pub extern "C" fn yotselina_remove(table: &mut [u8], number: usize) -> u32
    ensures { RemoveGiven table.old number table.new result }
{
    if table.len() < SIZE {
        return too_short();
    }
    let t = held::table_in(table);
    let edited = edits::remove(t, number);
    answers::give_table(table, on_file(edited))
}

// Joins two held tables in series; the joined table is held in `res` (the header's `result`).
#[unsafe(no_mangle)]
pub extern "C" fn yotselina_join(first: &[u8], second: &[u8], res: &mut [u8]) -> u32
    ensures { JoinGiven first.now second.now res.old res.new result }
{
    if first.len() < SIZE {
        return too_short();
    }
    if second.len() < SIZE {
        return too_short();
    }
    if res.len() < SIZE {
        return too_short();
    }
    let t = held::table_in(first);
    let other = held::table_in(second);
    let joined = series::join(t, other);
    answers::give_table(res, on_file(joined))
}

// The difference of two lists of output codes: the answer is how they compare, and of a clash how many codes they have in common at the beginning,
// otherwise 0.
#[unsafe(no_mangle)]
pub extern "C" fn yotselina_difference(x: &[u8], y: &[u8], answer: &mut [u64]) -> u32
    ensures { DifferenceGiven x.now y.now answer.old answer.new result }
{
    if answer.len() < answers::DIFFERENCE {
        return too_short();
    }
    let comparison = words::difference(x, y);
    let kind = answers::kind(comparison);
    answers::give(answer, Ok([kind, words::carried(comparison) as u64]))
}

// The answer of a call that has no file: a refusal without a record.
fn on_file(made: Result<Transducer, Refusal>) -> Result<Transducer, FileRefusal>
    ensures { result ≡ engine.on_file made }
{
    Ok(made?)
}

// The flags of useful states.
fn members(states: StateSet) -> [bool; STATES]
    ensures { result ≡ states.member }
{
    states.member
}

// The refusal of a list that is shorter than the call needs before it can begin. Each call tests its lists itself: an inner function with `?` for each would
// say its contract twice.
fn too_short() -> u32
    ensures { result ≡ list_too_short }
{
    Refusal::ListTooShort.number() as u32
}

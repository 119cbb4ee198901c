// What the exported functions of `unit` return, and how they put numbers, flags and tables into the lists that are lent. The contracts cite
// specs/Answers.antt.
#![tactic(auto)]

ghost use Rattle.std.specs.Prelude.{◌≡◌, [], ◌∷◌, map, ◌≤◌, length, Ok};
ghost use Rattle.buffers.specs.Put.{put};
ghost use Rattle.transducer.specs.Refusals as refusals;
ghost use Rattle.transducer.specs.Valid.{Shaped};
ghost use Rattle.tablereader.specs.Outcome.{number_of, record_of, table_of_reading};
ghost use Rattle.held.specs.Held.{flag_of, held_size};
ghost use Rattle.answers.specs.Answers.{refusal_code, verdict_answer, kind_of, numbers_of, listed_of, Given, Flagged, HeldIn};

use functionality::Verdict;
use tablereader::FileRefusal;
use transducer::Transducer;
use transducer::refusals::Refusal;
use witness::Counts;
use words::Comparison;

// How many numbers the answer to a verdict has: split, u, five counts, and how many codes the two outputs have in common.
pub const VERDICT: usize = 8;
// The answer to a translation: a length.
pub const TRANSLATE: usize = 1;
// The answer to a word test: yes or no.
pub const ACCEPTS: usize = 1;
// The answer to the useful pairs: u.
pub const PAIRS: usize = 1;
// The answer to a difference: its kind, and the number that a clash carries.
pub const DIFFERENCE: usize = 2;
// The answer to a writing: a byte count.
pub const WRITE: usize = 1;

// The counts of a single verdict.
const NO_WITNESS: Counts = Counts {
    word: 0,
    path_a: 0,
    path_b: 0,
    output_x: 0,
    output_y: 0,
    shared: 0,
};

// The refusal of a file, 0 where it is taken.
// These answers stay numbers, 0 where nothing is refused: C takes them so (the header of `unit`).
#[tactic(auto, unfolding(crate::specs::Answers::refusal_code))]
pub fn of_file(reading: Result<Transducer, FileRefusal>) -> u32
    ensures { result ≡ refusal_code (number_of reading) (record_of reading) }
{
    match reading {
        Ok(_) => 0,
        Err(refused) => code(refused),
    }
}

// A refusal as one number: its own in the low 16 bits, the record's above.
#[tactic(auto, unfolding(crate::specs::Answers::refusal_code))]
fn code(refused: FileRefusal) -> u32
    ensures { result ≡ refusal_code (refusals.refusal_number refused.refusal) refused.«record» }
{
    refused.refusal.number() as u32 + 65536 * refused.record as u32
}

// The number of a comparison: 0 level, 1 first ahead, 2 second ahead, 3 clash. No `From`, since the type is of another crate, and a clash carries a number.
pub fn kind(comparison: Comparison) -> u64
    ensures { result ≡ kind_of comparison }
{
    match comparison {
        Comparison::Level => 0,
        Comparison::FirstAhead => 1,
        Comparison::SecondAhead => 2,
        Comparison::Clash(_) => 3,
    }
}

// Ends a call: puts its numbers to the front of the answer list, or returns its refusal.
pub fn give<const N: usize>(answer: &mut [u64], numbers: Result<[u64; N], Refusal>) -> u32
    requires { N ≤ length answer.old }
    ensures { Given (refusals.number_of numbers.entry) (listed_of numbers.entry) answer.old answer.new result }
{
    match numbers {
        Ok(numbers) => {
            put_numbers(answer, &numbers);
            0
        }
        Err(refusal) => refusal.number() as u32,
    }
}

// The same for the eight numbers of a verdict.
pub fn give_verdict(answer: &mut [u64], verdict: Result<Verdict, Refusal>) -> u32
    requires { verdict_answer ≤ length answer.old }
    ensures { Given (refusals.number_of verdict) (numbers_of verdict) answer.old answer.new result }
{
    give(answer, verdict.map(numbers))
}

// Ends a call that shows which of several things have a property: a flag for each at the front of `flags`, or the refusal, that of a list with fewer
// places last.
pub fn give_flags<const N: usize>(flags: &mut [u8], members: Result<[bool; N], Refusal>) -> u32
    ensures { Flagged (refusals.number_of members.entry) (listed_of members.entry) flags.old flags.new result }
{
    let members = match members {
        Ok(members) => members,
        Err(refusal) => return refusal.number() as u32,
    };
    if flags.len() < members.len() {
        return Refusal::TooShort.number() as u32;
    }
    put_flags(flags, &members);
    0
}

// Ends a call that makes a table: the table held at the front of `memory`, or the refusal.
pub fn give_table(memory: &mut [u8], made: Result<Transducer, FileRefusal>) -> u32
    requires shaped { Shaped (table_of_reading made) }
    requires held_size_in_bounds { held_size ≤ length memory.old }
    ensures { HeldIn (refusal_code (number_of made) (record_of made)) (table_of_reading made) memory.old memory.new result }
{
    match made {
        Ok(table) => {
            held::hold(table, memory);
            0
        }
        Err(refusal) => code(refusal),
    }
}

// Puts numbers to the front of a list.
pub fn put_numbers(list: &mut [u64], numbers: &[u64])
    requires { length numbers.now ≤ length list.old }
    ensures { list.new ≡ put list.old 0 numbers.now }
{
    list[0..numbers.len()].copy_from_slice(numbers);
}

// Puts flags to the front of a list, 1 for true and 0 for false.
fn put_flags(list: &mut [u8], flags: &[bool])
    requires { length flags.now ≤ length list.old }
    ensures { list.new ≡ put list.old 0 (map flag_of flags.now) }
{
    // Stays indexed: a zip with the front of the list is no plainer.
    for (i, flag) in flags.iter().enumerate() {
        list[i] = *flag as u8;
    }
}

// The eight numbers of a verdict.
fn numbers(verdict: Verdict) -> [u64; VERDICT]
    ensures { result ≡ numbers_of (Ok verdict) }
{
    let split = verdict.witness.is_some();
    let counts = verdict.witness.unwrap_or(NO_WITNESS);
    [
        split as u64,
        verdict.useful as u64,
        counts.word as u64,
        counts.path_a as u64,
        counts.path_b as u64,
        counts.output_x as u64,
        counts.output_y as u64,
        counts.shared as u64,
    ]
}

// The answer of one number.
pub fn one(number: usize) -> [u64; 1]
    ensures { result ≡ number ∷ [] }
{
    [number as u64]
}

// The answer of a yes or a no.
pub fn yes(says_yes: bool) -> [u64; 1]
    ensures { result ≡ flag_of says_yes ∷ [] }
{
    [says_yes as u64]
}

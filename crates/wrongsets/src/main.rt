// Table values that keep a set of states, right or wrong, handed to every call that takes a table (document 02, job 7): no file and no call makes a wrong one,
// and C holds no value. The last are made by an edit and by a join.
// A line for each value: its name, the number that each call answers, and what the look shows, a flag for each state. The calls, in this order: write,
// verdict, translate, word test, join before and behind a table that is right, append, remove, useful states, useful pairs.
#![tactic(auto)]

use std::fmt::{InlineText, Write};
use transducer::limits::STATES;
use transducer::refusals::Refusal;
use transducer::{StateSet, Transducer, Transition};
use witness::Lent;

// The bytes of a line: the name, a number of three bytes for each of the ten calls, a space, the look with a flag for each state, and the line's end.
const LINE: usize = 8 + 10 * 3 + 1 + STATES + 1;

fn main(rt: HostRuntime) {
    right_and_none(&rt);
    too_many(&rt);
    dead_end(&rt);
    broken(&rt);
    blank(&rt);
    made(&rt);
}

// The one state that is start and final, and no state.
fn right_and_none(rt: &HostRuntime) {
    let none = StateSet::empty();
    show(rt, "right   ", with_set(one_state(), none.with(0)));
    show(rt, "none    ", with_set(one_state(), none));
}

// With it, states that the table does not have.
fn too_many(rt: &HostRuntime) {
    let none = StateSet::empty();
    let zero = none.with(0);
    show(rt, "beyond n", with_set(one_state(), zero.with(1)));
    show(rt, "and 31  ", with_set(one_state(), zero.with(31)));
}

// A second state, which does not finish: left out, and kept with all that is reached.
fn dead_end(rt: &HostRuntime) {
    let none = StateSet::empty();
    let zero = none.with(0);
    show(rt, "dead end", with_set(with_dead_end(one_state()), zero));
    show(
        rt,
        "reached ",
        with_set(with_dead_end(one_state()), zero.with(1)),
    );
}

// A value that breaks a rule, of 40 states: the look shows what it keeps.
fn broken(rt: &HostRuntime) {
    let none = StateSet::empty();
    let zero = none.with(0);
    let mut t = one_state();
    t.states = 40;
    show(rt, "n is 40 ", with_set(t, zero.with(31)));
}

// The blank table, with its own set, and with its state.
fn blank(rt: &HostRuntime) {
    let none = StateSet::empty();
    show(rt, "blank   ", with_set(transducer::blank(), none));
    show(rt, "blank, 0", with_set(transducer::blank(), none.with(0)));
}

// What an edit and a join make: start 0, final 1 and a line between them, that line removed again, and the table before one state.
fn made(rt: &HostRuntime) {
    let none = StateSet::empty();
    let table = appended();
    show(rt, "appended", table);
    show(rt, "removed ", edits::remove(table, 0).unwrap_or(table));
    let joined = series::join(table, with_set(one_state(), none.with(0)));
    show(rt, "joined  ", joined.unwrap_or(transducer::blank()));
}

// Start 0, final 1, to which an edit appends a line from 0 to 1 that reads and writes nothing.
fn appended() -> Transducer {
    let none = StateSet::empty();
    let mut t = transducer::blank();
    t.states = 2;
    t.starts = none.with(0);
    t.finals = none.with(1);
    let mut v = Transition::clear();
    v.to = 1;
    edits::append(t, v).unwrap_or(t)
}

// One state, start and final.
fn one_state() -> Transducer {
    let none = StateSet::empty();
    let zero = none.with(0);
    let mut t = transducer::blank();
    t.starts = zero;
    t.finals = zero;
    t
}

// t with a second state, and a line into it that reads and writes nothing.
fn with_dead_end(mut t: Transducer) -> Transducer {
    let mut v = Transition::clear();
    v.to = 1;
    t.states = 2;
    t.count = 1;
    t.transitions[0] = v;
    t
}

// t, keeping this set, whatever it is.
fn with_set(mut t: Transducer, useful: StateSet) -> Transducer {
    t.useful = useful;
    t
}

// Prints the line of t.
fn show(rt: &HostRuntime, name: &str, t: Transducer) {
    let mut line = InlineText::<LINE>::new();
    // Each line has room for all that is put into it.
    let _name = write!(line, "{name}");
    for number in numbers(t) {
        let _number = write!(line, " {number:02}");
    }
    let _space = write!(line, " ");
    for shown in panel::look(t).member {
        let flag = shown as u8;
        let _flag = write!(line, "{flag}");
    }
    let _end = writeln!(line, "");
    let output = rt.stdout();
    let errors = rt.stderr();
    streams::write(
        &output,
        &errors,
        b"wrongsets: standard output",
        line.as_str().as_bytes(),
    );
}

// The numbers that the calls answer of t.
fn numbers(t: Transducer) -> [u8; 10] {
    let one = with_set(one_state(), StateSet::empty().with(0));
    [
        of_write(t),
        of_verdict(t),
        of_translate(t),
        of_test(t),
        number(series::join(t, one)),
        number(series::join(one, t)),
        number(edits::append(t, Transition::clear())),
        number(edits::remove(t, 0)),
        number(useful::useful_states(t)),
        number(pairs::useful_pairs(t)),
    ]
}

// The number of an answer: its refusal's, 0 where there is none.
// Stays beside `of_file` of `answers`, whose number has the record's in it.
fn number<A: Drop>(answer: Result<A, Refusal>) -> u8 {
    match answer {
        Ok(_) => 0,
        Err(refusal) => refusal.number(),
    }
}

// The number of the writer's answer.
fn of_write(t: Transducer) -> u8 {
    let mut out = [0u8; 100];
    number(tablewriter::write(t, &mut out))
}

// The number of the verdict.
fn of_verdict(t: Transducer) -> u8 {
    let mut word = [0u8; witness::STEPS];
    let mut path_a = [0u16; witness::STEPS];
    let mut path_b = [0u16; witness::STEPS];
    let mut output_x = [0u8; witness::CODES];
    let mut output_y = [0u8; witness::CODES];
    let mut lent = Lent {
        word: &mut word,
        path_a: &mut path_a,
        path_b: &mut path_b,
        output_x: &mut output_x,
        output_y: &mut output_y,
    };
    number(functionality::decide(t, &mut lent))
}

// The number of the translation of the empty word.
fn of_translate(t: Transducer) -> u8 {
    let mut out = [0u8; 10];
    number(translator::translate(t, &[], &mut out))
}

// The number of the word test of two empty words.
fn of_test(t: Transducer) -> u8 {
    number(wordtest::accepts(t, &[], &[]))
}

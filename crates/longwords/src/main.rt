// Two lists of 1,000,000 codes, in this program's own memory, and parts of them, compared by `words::difference` and `words::unmatched` (document 01, "The
// difference of two outputs"). The codes 1 to 250 stand in turn in both lists; then the bytes that are no output codes, 0 and 251 to 255.
// A line for each comparison: what is compared, how it comes out, the number that it carries, how many codes the unmatched end has, and its first and its
// last code, or for each a dash.
#![tactic(auto)]

use std::fmt::{InlineText, Write};
use words::Comparison;

// The codes of a list.
const CODES: usize = 1000000;
// The bytes of a line, its end included: what is compared in 24 columns and how it comes out in 12, then the number that is carried and the count of codes
// in 7 columns each and the first and the last code in 3, with a space before each number.
const LINE: usize = 24 + 12 + 2 * 8 + 2 * 4 + 1;

fn main(rt: HostRuntime) {
    let mut x = [0u8; CODES];
    let mut y = [0u8; CODES];
    compare_all(&rt, &mut x, &mut y);
}

// Fills both lists, with codes and then with other bytes, and compares them.
fn compare_all(rt: &HostRuntime, x: &mut [u8; CODES], y: &mut [u8; CODES]) {
    write(rt, "the codes 1 to 250\n");
    codes(x);
    codes(y);
    compare(rt, x, y, 2, 1);
    write(rt, "the bytes 0 and 251 to 255\n");
    other_bytes(x);
    other_bytes(y);
    compare(rt, x, y, 251, 0);
}

// Two equal lists; then the same with another last code in the second, and then with another first code in it, too.
// The lists stay two parameters, here and below: parts of the one are shown beside parts of the other.
fn compare(rt: &HostRuntime, x: &[u8; CODES], y: &mut [u8; CODES], first: u8, last: u8) {
    beginnings(rt, x, y);
    let end = y.len() - 1;
    y[end] = last;
    other_last(rt, x, y);
    y[0] = first;
    other_first(rt, x, y);
}

// Fills the list with the codes 1 to 250, in turn.
fn codes(list: &mut [u8]) {
    for (i, code) in list.iter_mut().enumerate() {
        *code = (i % 250) as u8 + 1;
    }
}

// Fills the list with the bytes that are no output codes, 0 and 251 to 255, in turn.
fn other_bytes(list: &mut [u8]) {
    let bytes = [0u8, 251, 252, 253, 254, 255];
    for (i, byte) in list.iter_mut().enumerate() {
        *byte = bytes[i % 6];
    }
}

// Of two equal lists, the whole and beginnings.
fn beginnings(rt: &HostRuntime, x: &[u8; CODES], y: &[u8; CODES]) {
    let last = x.len() - 1;
    show(rt, "both whole              ", x, y);
    show(rt, "second without its last ", x, &y[0..last]);
    show(rt, "first without its last  ", &x[0..last], y);
    show(rt, "of the second one code  ", x, &y[0..1]);
    show(rt, "of the first one code   ", &x[0..1], y);
    show(rt, "of the second none      ", x, &y[0..0]);
    show(rt, "of the first none       ", &x[0..0], y);
    show(rt, "of both none            ", &x[0..0], &y[0..0]);
}

// Of two lists that differ in the last code.
fn other_last(rt: &HostRuntime, x: &[u8; CODES], y: &[u8; CODES]) {
    let last = x.len() - 1;
    show(rt, "another last code       ", x, y);
    show(rt, "both without it         ", &x[0..last], &y[0..last]);
    show(rt, "second without it       ", x, &y[0..last]);
    show(rt, "first without it        ", &x[0..last], y);
}

// Of two lists that differ in the first code, too.
fn other_first(rt: &HostRuntime, x: &[u8; CODES], y: &[u8; CODES]) {
    let last = x.len() - 1;
    show(rt, "another first code      ", x, y);
    show(rt, "of each the first alone ", &x[0..1], &y[0..1]);
    show(rt, "the codes between       ", &x[1..last], &y[1..last]);
}

// Prints the line of x and y.
fn show<'a>(rt: &HostRuntime, name: &str, x: &'a [u8], y: &'a [u8]) {
    let comparison = words::difference(x, y);
    let outcome = named(comparison);
    let carried = words::carried(comparison);
    let end = words::unmatched(x, y);
    let count = end.len();
    let mut line = InlineText::<LINE>::new();
    // Each line has room for all that is put into it.
    let _put = match (end.first(), end.last()) {
        (Some(first), Some(last)) => writeln!(
            line,
            "{name}{outcome:12} {carried:7} {count:7} {first:3} {last:3}"
        ),
        _ => writeln!(line, "{name}{outcome:12} {carried:7} {count:7}   -   -"),
    };
    write(rt, line.as_str());
}

// How a comparison comes out, in words.
// Stays a function, and no Display: the type is of `words`, and these words are of this program alone.
fn named(c: Comparison) -> &'static str {
    match c {
        Comparison::Level => "level",
        Comparison::FirstAhead => "first ahead",
        Comparison::SecondAhead => "second ahead",
        Comparison::Clash(_) => "clash",
    }
}

// Prints this text; a write that fails is reported.
fn write(rt: &HostRuntime, text: &str) {
    let output = rt.stdout();
    let errors = rt.stderr();
    streams::write(
        &output,
        &errors,
        b"longwords: standard output",
        text.as_bytes(),
    );
}

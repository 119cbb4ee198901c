// The records of a table file, up to the whole file. Each function puts its bytes from the place `at` and returns the place behind them
// (`Puts` of `buffers`), so that the next one goes on there.
ghost use Rattle.std.specs.Prelude.{◌≤◌};
ghost use Rattle.buffers.specs.Put.{Room, Puts};
ghost use Rattle.transducer.specs.Limits.{most_outputs};
ghost use Rattle.transducer.specs.Valid.{Valid};
ghost use Rattle.tablewriter.specs.File.{states_of, state_bytes, transition_bytes, transition_bytes_below, header_bytes, write_of};

use crate::size;
use records::writer;
use transducer::{StateSet, Transducer, Transition, limits};

// The file of t, from the front of `out`.
pub fn put_file(out: &mut [u8], t: Transducer) -> usize
    requires valid { Valid t }
    requires room { Room out.old 0 (write_of t) }
    ensures { Puts out.old 0 (write_of t) out.new result }
{
    let header = put_header(out, t);
    let starts = put_states(out, header, b'S', t.starts);
    let finals = put_states(out, starts, b'F', t.finals);
    put_transitions(out, finals, t)
}

// The first record, from the front of `out`.
fn put_header(out: &mut [u8], t: Transducer) -> usize
    requires { Room out.old 0 (header_bytes t) }
    ensures { Puts out.old 0 (header_bytes t) out.new result }
{
    let starts = size::count_states(t.starts);
    let finals = size::count_states(t.finals);
    let numbers = [t.states as u16, starts, finals, t.count];
    writer::put_record(out, 0, writer::COLUMNS, b'T', &numbers)
}

// A record for each state of s, rising.
fn put_states(out: &mut [u8], start: usize, letter: u8, s: StateSet) -> usize
    requires { Room out.old start (state_bytes letter (states_of s)) }
    ensures { Puts out.old start (state_bytes letter (states_of s)) out.new result }
{
    let mut at = start;
    for q in 0..limits::STATES as u8 {
        if s.contains(q) {
            at = writer::put_record(out, at, writer::COLUMNS, letter, &[q]);
        }
    }
    at
}

// A record for each transition of t.
fn put_transitions(out: &mut [u8], start: usize, t: Transducer) -> usize
    requires valid { Valid t }
    requires room { Room out.old start (transition_bytes_below t t.count) }
    ensures { Puts out.old start (transition_bytes_below t t.count) out.new result }
{
    let mut at = start;
    for v in &t.transitions[..t.count as usize] {
        at = put_transition(out, at, *v);
    }
    at
}

// The record of the transition v: four numbers, then its output codes, of which `count` are put.
fn put_transition(out: &mut [u8], at: usize, v: Transition) -> usize
    requires count_le_most_outputs { v.count ≤ most_outputs }
    requires room { Room out.old at (transition_bytes v) }
    ensures { Puts out.old at (transition_bytes v) out.new result }
{
    let numbers = [v.from, v.to, v.input.0, v.count];
    let codes = &v.output[..v.count as usize];
    writer::put_joined(out, at, writer::COLUMNS, b'L', &numbers, codes)
}

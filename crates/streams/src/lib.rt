// Standard input, files and standard output as the programs use them: a read that fails is told from the end of the input, a write that fails is not
// dropped, and either is reported on standard error. The contracts cite specs/Streams.antt.
#![tactic(auto)]

ghost use Rattle.std.specs.Prelude.{◌≡◌, ◌≤◌, length, None};
ghost use Rattle.streams.specs.Streams.{Told, ReadOn, StepOf};

use std::fmt::InlineText;
use std::io;
use std::io::{ErrorKind, Print, Read};

// The most bytes that are shown of what the system says of an error.
const MOST_WORDS: usize = 256;

// What came of one read. An enum of its own: an interruption is neither bytes nor the end nor a failure.
#[derive(Clone, Copy)]
enum Step {
    More(usize),
    Ended,
    Interrupted,
    Failed(io::Error),
}

// Reads until `buf` is full or the input ends, and returns how many bytes stand at its front. A read that brings only a part, or that a signal interrupts, is
// followed by another; one that fails is reported to `errors` under the name `what`, and nothing is returned.
// `errors` and `what` stay two parameters: each call of a program has another name, so a struct of both would be made for one call.
pub fn read<R: Read, P: Print>(
    source: &mut R,
    errors: &P,
    what: &[u8],
    buf: &mut [u8],
) -> Option<usize>
    ensures { Told result buf.new }
{
    let mut done = 0;
    // The loop is proved to end by these turns; no run uses them up.
    for _ in 0..u64::MAX {
        if done == buf.len() {
            return Some(done);
        }
        match read_on(source, buf, done) {
            Step::More(n) => done += n,
            Step::Interrupted => {}
            Step::Ended => return Some(done),
            Step::Failed(error) => return failed(errors, what, error),
        }
    }
    failed(errors, what, io::Error::from(ErrorKind::Interrupted))
}

// Reports a failed read.
fn failed<P: Print>(errors: &P, what: &[u8], error: io::Error) -> Option<usize>
    ensures { result ≡ None }
{
    report(errors, what, error);
    None
}

// One read into the places of `buf` from `at` on; those before stay as they are.
fn read_on<R: Read>(source: &mut R, buf: &mut [u8], at: usize) -> Step
    requires { at ≤ length buf.old }
    ensures { ReadOn at buf.old buf.new result }
{
    let part = &mut buf[at..];
    let got = source.read(part);
    step_of(got, part)
}

// What it means that a read into `part` has answered `got`.
fn step_of(got: io::Result<usize>, part: &[u8]) -> Step
    ensures { StepOf got (length part.now) result }
{
    match got {
        Ok(0) => Step::Ended,
        Ok(n) => Step::More(n.min(part.len())),
        Err(error) if error.kind() == ErrorKind::Interrupted => Step::Interrupted,
        Err(error) => Step::Failed(error),
    }
}

// Writes all of `bytes`. A write that fails, or that takes only a part and then no more, is reported to `errors` under the name `what`.
pub fn write<W: Print, P: Print>(sink: &W, errors: &P, what: &[u8], bytes: &[u8]) {
    if let Err(error) = sink.write_all(bytes) {
        report(errors, what, error);
    }
}

// One line: the name, and what the system says of the error, without its number.
fn report<P: Print>(errors: &P, what: &[u8], error: io::Error) {
    let words = InlineText::<MOST_WORDS>::of(error);
    let text = words.as_str();
    let end = text.find(" (os error ").unwrap_or(text.len());
    let said = text.split_at(end).0;
    // Where standard error fails too, there is nowhere left to say it.
    let _named = errors.write_all(what);
    let _said = println!(errors; ": {said}");
}

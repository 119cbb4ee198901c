// The translating program (document 01, "Writer and programs"): the first `READ_CODES` bytes of standard input are an input word, one code a byte,
// and the first `READ_BYTES` bytes of the file `table` are a table file; the listing of the translation is printed. Where either can't be read to its end
// nothing is printed, and the failure is reported on standard error.
#![tactic(auto)]

ghost use Rattle.streams.specs.Streams.{Told};

use listing::TRANSLATION_BYTES;
use report::{READ_BYTES, READ_CODES};
use std::fs::File;
use std::io::Print;

// Reads the beginning of the file `table`; a file that can't be opened counts as empty.
fn read_table<P: Print>(rt: &HostRuntime, errors: &P, text: &mut [u8]) -> Option<usize>
    ensures { Told result text.new }
{
    match File::open(rt, "table") {
        Ok(mut file) => streams::read(&mut file, errors, b"translate: table", text),
        Err(_) => Some(0),
    }
}

fn main(rt: HostRuntime) {
    let errors = rt.stderr();
    let mut text = [0u8; READ_BYTES];
    let Some(got) = read_table(&rt, &errors, &mut text) else {
        return;
    };
    let mut word = rt.stdin();
    let mut input = [0u8; READ_CODES];
    let Some(codes) = streams::read(&mut word, &errors, b"translate: standard input", &mut input)
    else {
        return;
    };
    let mut out = [0u8; TRANSLATION_BYTES];
    let listed = report::translation(&text, got, &input, codes, &mut out);
    let output = rt.stdout();
    streams::write(
        &output,
        &errors,
        b"translate: standard output",
        &out[0..listed],
    );
}

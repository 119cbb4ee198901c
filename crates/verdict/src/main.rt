// The verdict program (document 01, "Writer and programs"): the first `READ_BYTES` bytes of standard input are judged as a table file, and the listing is
// printed. Where the input can't be read to its end nothing is printed, and the failure is reported on standard error.
#![tactic(auto)]

use listing::VERDICT_BYTES;
use report::READ_BYTES;

fn main(rt: HostRuntime) {
    let mut input = rt.stdin();
    let errors = rt.stderr();
    let mut text = [0u8; READ_BYTES];
    let Some(got) = streams::read(&mut input, &errors, b"verdict: standard input", &mut text) else {
        return;
    };
    let mut out = [0u8; VERDICT_BYTES];
    let listed = report::verdict(&text, got, &mut out);
    let output = rt.stdout();
    streams::write(
        &output,
        &errors,
        b"verdict: standard output",
        &out[0..listed],
    );
}

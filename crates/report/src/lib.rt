// What the two programs print, from the bytes that they read (document 01, "Writer and programs"): `verdict` judges a table file, `translation`
// translates an input word by one. Both take arrays of exactly the sizes that document 01 has, with a count of what was read: a slice alone would not tie
// `READ_BYTES` and `READ_CODES` to the definitions. Both put the listing into an array that any listing fits. The contracts are the records of
// specs/Report.antt; what they come to, said of the file and the word alone, is in specs/Printed.antt.
#![tactic(auto)]

ghost use Rattle.std.specs.Prelude.{◌≤◌, length, take};
ghost use Rattle.buffers.specs.Put.{Puts};
ghost use Rattle.transducer.specs.Refusals.{refusal_number};
ghost use Rattle.listing.specs.Listing.{refusal_listing, pair_bytes};
ghost use Rattle.report.specs.Report.{read_bytes, read_codes, VerdictReport, TranslationReport};

use listing::{Shown, TRANSLATION_BYTES, VERDICT_BYTES};
use tablereader::FileRefusal;
use tablereader::record::MOST_BYTES;
use witness::{CODES, Lent, STEPS};
use wordsearch::limits;

// How many bytes of a table file are read: one more than the longest has, so that bytes behind the last record are seen.
pub const READ_BYTES: usize = MOST_BYTES + 1;
// How many codes of an input word are read: one more than the longest has.
pub const READ_CODES: usize = limits::WORD + 1;

// Judges a table file, the first `got` bytes of `text`, and puts the listing of the verdict, or of the refusal, at the front of `out`. Returns its
// length.
pub fn verdict(text: &[u8; READ_BYTES], got: usize, out: &mut [u8; VERDICT_BYTES]) -> usize
    requires { got ≤ read_bytes }
    ensures { VerdictReport (take got text.now) out.old out.new result }
{
    let bytes: &[u8] = text;
    let mut word = [0u8; STEPS];
    let mut path_a = [0u16; STEPS];
    let mut path_b = [0u16; STEPS];
    let mut output_x = [0u8; CODES];
    let mut output_y = [0u8; CODES];
    let mut lent = Lent {
        word: &mut word,
        path_a: &mut path_a,
        path_b: &mut path_b,
        output_x: &mut output_x,
        output_y: &mut output_y,
    };
    let verdict = match engine::judge(&bytes[0..got], &mut lent) {
        Ok(verdict) => verdict,
        Err(refused) => return list_refused(refused, out),
    };
    let Some(counts) = verdict.witness else {
        return listing::list_verdict(verdict.useful, None, out);
    };
    let words = counts.word as usize;
    let a = counts.path_a as usize;
    let b = counts.path_b as usize;
    let x = counts.output_x as usize;
    let y = counts.output_y as usize;
    let shown = Shown {
        word: &word[0..words],
        path_a: &path_a[0..a],
        path_b: &path_b[0..b],
        output_x: &output_x[0..x],
        output_y: &output_y[0..y],
        shared: counts.shared,
    };
    listing::list_verdict(verdict.useful, Some(shown), out)
}

// Translates the word that the first `codes` bytes of `input` are by a table file, the first `got` bytes of `text`, and puts the listing of the output,
// or of the refusal, at the front of `out`. Returns its length.
pub fn translation(
    text: &[u8; READ_BYTES],
    got: usize,
    input: &[u8; READ_CODES],
    codes: usize,
    out: &mut [u8; TRANSLATION_BYTES],
) -> usize
    requires got_le_read_bytes { got ≤ read_bytes }
    requires codes_le_read_codes { codes ≤ read_codes }
    ensures { TranslationReport (take got text.now) (take codes input.now) out.old out.new result }
{
    let bytes: &[u8] = text;
    let word: &[u8] = input;
    let mut output = [0u8; limits::WRITTEN];
    match engine::translate_file(&bytes[0..got], &word[0..codes], &mut output) {
        Ok(written) => listing::list_translation(&output[0..written], out),
        Err(refused) => list_refused(refused, out),
    }
}

// The listing of a refusal, at the front of `out`. Returns its length.
fn list_refused(refused: FileRefusal, out: &mut [u8]) -> usize
    requires { pair_bytes ≤ length out.old }
    ensures { Puts out.old 0 (refusal_listing (refusal_number refused.refusal) refused.«record») out.new result }
{
    listing::list_refusal(refused.refusal.number() as u16, refused.record, out)
}

// What the programs print (document 01, "Writer and programs"), written into a buffer: a verdict, a refusal or a translation, as records of
// `records::writer`. The listings are definitions of specs/Listing.antt; `Puts` of `buffers` says that one stands in the buffer from a place, that the other
// places hold what they held, and which place is behind it.
#![tactic(auto)]

ghost use Rattle.std.specs.Prelude.{◌≤◌, length};
ghost use Rattle.buffers.specs.Put.{Room, Puts};
ghost use Rattle.listing.specs.Listing.{refusal_listing, translation_listing, pair_bytes, TranslationRoom};
ghost use Rattle.listing.specs.Shown.{shown_listing, shown_witness, ShownRoom, WitnessFew};

use records::writer;
use records::writer::LISTING_COLUMNS;
use witness::{CODES, STEPS};
use wordsearch::limits;

// The bytes of the longest listing of a verdict: `V` with two numbers, five records of a count and items, `STEPS` of the input word and of each path
// and `CODES` of each output, and `D` with one number. A record has two bytes beside its fields, the letter and the end.
pub const VERDICT_BYTES: usize = 2
    + 2 * LISTING_COLUMNS
    + 5 * (2 + LISTING_COLUMNS)
    + LISTING_COLUMNS * (3 * STEPS + 2 * CODES)
    + 2
    + LISTING_COLUMNS;
// The bytes of the longest listing of a translation: one record of a count and items.
pub const TRANSLATION_BYTES: usize = 2 + LISTING_COLUMNS + LISTING_COLUMNS * limits::WRITTEN;

// What is shown of a split table: the input word, the two paths and their outputs, and how many codes these have in common at the beginning.
#[derive(Clone, Copy)]
pub struct Shown<'a> {
    pub word: &'a [u8],
    pub path_a: &'a [u16],
    pub path_b: &'a [u16],
    pub output_x: &'a [u8],
    pub output_y: &'a [u8],
    pub shared: u16,
}

// The listing of a verdict, from the front of `out`: `V` with 0 for single and 1 for split, and u; for split, which is told by what is shown, also the
// input word, the two paths and their outputs, and how many codes these have in common at the beginning. Returns its length.
pub fn list_verdict(u: u16, shown: Option<Shown>, out: &mut [u8]) -> usize
    requires { ShownRoom shown out.old }
    ensures { Puts out.old 0 (shown_listing u shown.entry) out.new result }
{
    match shown {
        None => writer::put_record(out, 0, LISTING_COLUMNS, b'V', &[0, u]),
        Some(s) => {
            let verdict = writer::put_record(out, 0, LISTING_COLUMNS, b'V', &[1, u]);
            put_witness(out, verdict, &s)
        }
    }
}

// The records of a witness, from `at`. Returns the place behind them.
fn put_witness(out: &mut [u8], at: usize, s: &Shown) -> usize
    requires few { WitnessFew s.now }
    requires room { Room out.old at (shown_witness s.now) }
    ensures { Puts out.old at (shown_witness s.now) out.new result }
{
    let word = writer::put_counted(out, at, LISTING_COLUMNS, b'W', s.word);
    let path_a = writer::put_counted(out, word, LISTING_COLUMNS, b'A', s.path_a);
    let path_b = writer::put_counted(out, path_a, LISTING_COLUMNS, b'B', s.path_b);
    let output_x = writer::put_counted(out, path_b, LISTING_COLUMNS, b'X', s.output_x);
    let output_y = writer::put_counted(out, output_x, LISTING_COLUMNS, b'Y', s.output_y);
    writer::put_record(out, output_y, LISTING_COLUMNS, b'D', &[s.shared])
}

// The listing of a refusal, from the front of `out`: its number and the record number. Returns its length.
// Stays two numbers: the listing is defined for any two (`refusal_listing`), and the refusal of a file is a type of a crate that this one does not use.
#[tactic(auto, using(crate::proofs::ListingLaws::refusal_room), unfolding(crate::specs::Listing::refusal_listing))]
pub fn list_refusal(number: u16, record_number: u16, out: &mut [u8]) -> usize
    requires { pair_bytes ≤ length out.old }
    ensures { Puts out.old 0 (refusal_listing number record_number) out.new result }
{
    writer::put_record(out, 0, LISTING_COLUMNS, b'R', &[number, record_number])
}

// The listing of a translation, from the front of `out`. Returns its length.
#[tactic(auto, using(crate::proofs::ListingLaws::translation_room), unfolding(crate::specs::Listing::translation_listing))]
pub fn list_translation(items: &[u8], out: &mut [u8]) -> usize
    requires { TranslationRoom items.now out.old }
    ensures { Puts out.old 0 (translation_listing items.now) out.new result }
{
    writer::put_counted(out, 0, LISTING_COLUMNS, b'X', items)
}

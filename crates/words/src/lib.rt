// The difference of two words (document 01, "The difference of two outputs"): what they have in common at the beginning is stripped,
// and the rests tell how the two compare and what of the longer one is unmatched. The contracts cite specs/Difference.antt. specs/Laws.antt says that a
// common beginning can be left out, and how far two words agree; other laws are in proofs/.
#![tactic(auto)]

ghost use Rattle.std.specs.Prelude.{◌≡◌};
ghost use Rattle.words.specs.Difference.{shared_of, difference_of, carried_of, unmatched_of, shown_at};

// How two words compare once their common beginning is stripped.
#[derive(Clone, Copy)]
pub enum Comparison {
    // Nothing is left.
    Level,
    // The second is used up, the first goes on.
    FirstAhead,
    // The first is used up, the second goes on.
    SecondAhead,
    // Both go on, with different codes; so many codes are stripped.
    Clash(usize),
}

// How x and y compare. They may hold any bytes.
pub fn difference(x: &[u8], y: &[u8]) -> Comparison
    ensures { result ≡ difference_of x.now y.now }
{
    let n = shared(x, y);
    match (n < x.len(), n < y.len()) {
        (false, false) => Comparison::Level,
        (true, false) => Comparison::FirstAhead,
        (false, true) => Comparison::SecondAhead,
        (true, true) => Comparison::Clash(n),
    }
}

// The number that a comparison carries: of a clash, how many codes the two words have in common at the beginning; otherwise 0.
// Stays a number, 0 for none, and beside `kind` of `answers`: the documents' answer of a difference is these two numbers.
pub fn carried(comparison: Comparison) -> usize
    ensures { result ≡ carried_of comparison }
{
    match comparison {
        Comparison::Level => 0,
        Comparison::FirstAhead => 0,
        Comparison::SecondAhead => 0,
        Comparison::Clash(n) => n,
    }
}

// The unmatched end of the longer word, as the part of x or y that it is (nothing is copied); the empty part where they are level or clash.
pub fn unmatched<'a>(x: &'a [u8], y: &'a [u8]) -> &'a [u8]
    ensures result_value { result.now ≡ unmatched_of x.now y.now }
    ensures ref_ptr_value { result.ref_ptr ≡ shown_at x.now y.now x.entry.ref_ptr y.entry.ref_ptr }
{
    let n = shared(x, y);
    if n < y.len() {
        if n < x.len() { &x[n..n] } else { &y[n..] }
    } else {
        &x[n..]
    }
}

// How many codes x and y have in common at the beginning, also where one is the beginning of the other.
pub fn shared(x: &[u8], y: &[u8]) -> usize
    ensures { result ≡ shared_of x.now y.now }
{
    // Cut to the shorter one's length first, so that each step compares one length in place of two: without the cut it took half as long again.
    let n = x.len().min(y.len());
    x[..n]
        .iter()
        .zip(y[..n].iter())
        .take_while(|(a, b)| a == b)
        .count()
}

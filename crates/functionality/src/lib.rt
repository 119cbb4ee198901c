// The functionality test (document 01: the verdict): whether each input word has one output at most, and if not, a word with two. Its contract is
// `Decided` of specs/Decided.antt. What is tested, and why it is enough, is in the crate `equations`.
#![tactic(auto)]

ghost use Rattle.std.specs.Prelude.{◌≡◌, true, false, Ok};
ghost use Rattle.transducer.specs.Accepted.{Asked, accepted_of};
ghost use Rattle.product.specs.Machine.{ImageOf};
ghost use Rattle.witness.specs.Showing.{contents_of, SameMemory};
ghost use Rattle.equations.specs.Tests.{Standing, Differing, Tested};
ghost use Rattle.functionality.specs.Decided.{full_of, Decided};

use equations::Failure;
use pairs::{Links, UsefulPairs};
use product::machine::Machine;
use product::steps::PAIRS;
use transducer::Transducer;
use transducer::refusals::Refusal;
use witness::{CODES, Counts, Lent, STEPS};
use worklist::Search;

// How many useful pairs there are (document 01: u); and of a transducer that is not functional, the witness that stands in the buffers: how many items
// of it, and how many codes its outputs have in common.
#[derive(Clone, Copy)]
pub struct Verdict {
    pub useful: u16,
    pub witness: Option<Counts>,
}

// Whether t is functional. If it is not, an input word, two accepting paths that read it, and their outputs, which differ, stand at the front of the
// memory that is lent.
pub fn decide(t: Transducer, lent: &mut Lent) -> Result<Verdict, Refusal>
    ensures same_memory { SameMemory lent.old lent.new }
    ensures decided { Decided t (contents_of lent.old) (contents_of lent.new) result }
{
    if !accepted(&t) {
        return Err(Refusal::Invalid);
    }
    if !full(lent) {
        return Err(Refusal::TooShort);
    }
    Ok(examine(&t, lent))
}

// Whether t is accepted. A function of its own: what it works with is no longer in memory where the verdict is made.
#[inline(never)]
fn accepted(t: &Transducer) -> bool
    ensures { Asked t.now result }
{
    useful::accepted(*t)
}

// Whether the five buffers are lent in full.
#[tactic(auto, unfolding(crate::specs::Decided::long_enough))]
fn full(lent: &Lent) -> bool
    ensures { result ≡ full_of (contents_of lent.now) }
{
    (STEPS <= lent.word.len())
        & (STEPS <= lent.path_a.len())
        & (STEPS <= lent.path_b.len())
        & (CODES <= lent.output_x.len())
        & (CODES <= lent.output_y.len())
}

// The verdict on a transducer that is accepted, with buffers in full.
#[inline(never)]
fn examine(t: &Transducer, lent: &mut Lent) -> Verdict
    requires t_value { accepted_of t.now ≡ true }
    requires full { full_of (contents_of lent.old) ≡ true }
    ensures same_memory { SameMemory lent.old lent.new }
    ensures decided { Decided t.now (contents_of lent.old) (contents_of lent.new) (Ok result) }
{
    let m = Machine::by_input(*t);
    let mut out = Links::new();
    let (found, failure) = test(t, &m, &mut out);
    match failure {
        None => Verdict {
            useful: found.count,
            witness: None,
        },
        Some(failure) => split(t, &m, found, &out, failure, lent),
    }
}

// The useful pairs, whose ways out are written into `out`, and where a test fails, if one does. A function of its own: its search is no longer in memory where a
// witness is made.
#[inline(never)]
fn test(t: &Transducer, m: &Machine, out: &mut Links) -> (UsefulPairs, Option<Failure>)
    requires t_value { accepted_of t.now ≡ true }
    requires image_of { ImageOf t.now false m.now }
    ensures standing { Standing t.now result.0 out.new.link out.new.label }
    ensures tested { Tested t.now out.new.link out.new.label result.1 }
{
    let mut search = Search::<PAIRS>::new();
    let found = pairs::ways_out(t, m, &mut search, out);
    let failure = equations::search(t, m, out, &search);
    (found, failure)
}

// The verdict on a transducer at which a test fails: the walk that shows it is put into the buffers. A function of its own: where nothing fails its list of
// steps is not made.
#[inline(never)]
fn split(
    t: &Transducer,
    m: &Machine,
    found: UsefulPairs,
    out: &Links,
    failure: Failure,
    lent: &mut Lent,
) -> Verdict
    requires standing { Standing t.now found out.now.link out.now.label }
    requires image_of { ImageOf t.now false m.now }
    requires differing { Differing t.now out.now.link out.now.label failure }
    requires full { full_of (contents_of lent.old) ≡ true }
    ensures same_memory { SameMemory lent.old lent.new }
    ensures decided { Decided t.now (contents_of lent.old) (contents_of lent.new) (Ok result) }
{
    let mut steps = [0u32; STEPS];
    let place = equations::walk(*t, m, found, out, failure, &mut steps);
    let counts = witness::show(*t, &steps[place.start..place.end], lent);
    Verdict {
        useful: found.count,
        witness: Some(counts),
    }
}

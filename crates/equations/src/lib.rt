// The functionality test: an equation at each step between useful pairs, and where one fails a walk whose two sides have different outputs. If none
// fails the transducer is functional (proofs/Equations.antt). The contracts of `search` and `walk` cite specs/Tests.antt, those of the loops of the
// tests specs/Loops.antt.
#![tactic(auto)]

ghost use Rattle.std.specs.Prelude.{false, ◌≡◌, length};
ghost use Rattle.product.specs.Machine.{ImageOf};
ghost use Rattle.equations.specs.Links.{most_steps};
ghost use Rattle.equations.specs.Tests.{Standing, Listed, Differing, Tested, Fails};

pub mod testing;
#[cfg(test)]
mod tests;
pub mod way;

use delays::equation::StepTo;
use delays::links::PairLinks;
use delays::sides::Words;
use delays::ways::Ways;
use outputs::Outputs;
use pairs::UsefulPairs;
use product::machine::Machine;
use product::steps::PAIRS;
use testing::Tests;
use transducer::Transducer;
use way::{MIDDLE, Place};
use worklist::Search;

// Where a test fails at a pair: at the pair itself, one of start states whose two sides do not write equally much; or at a step from it, where the
// equation does not hold.
// Stays an enum, and no Option: its None would be a failure too, and the definition `DiffersAt` says what each case means.
#[derive(Clone, Copy)]
pub enum At {
    Start,
    Step(StepTo),
}

// Where a test fails: the pair, and where at it.
#[derive(Clone, Copy)]
pub struct Failure {
    pub from: usize,
    pub at: At,
}

// All tests, with memory for what they use: where one fails, or nothing, and then t is functional. `found` has the useful pairs in the order in which
// they were found, `out` the ways out of them. The memory is cleared first: behind other work it would be cleared twice.
#[inline(never)]
pub fn search<'a>(
    t: &Transducer,
    m: &'a Machine,
    out: &'a pairs::Links,
    found: &Search<PAIRS>,
) -> Option<Failure>
    requires listed { Listed t.now found.now.count out.now.link out.now.label found.now.order }
    requires image_of { ImageOf t.now false m.now }
    ensures { Tested t.now out.now.link out.now.label result }
{
    let mut tested = [false; PAIRS];
    let mut sides = Words::new();
    let mut needs = Words::new();
    let written = Outputs::of(*t);
    let links = PairLinks {
        link: &out.link,
        label: &out.label,
    };
    let tests = Tests {
        starts: t.starts,
        machine: m,
        ways: Ways::of(&written, links, found),
    };
    tests.try_pairs(found, &mut tested, &mut sides, &mut needs)
}

// Where a test fails, a walk whose two sides have different outputs, written into `steps`: at an uneven pair of start states the way out of it; at a
// step from i to j the way into i and out of it, which is compared, or else the way into i, the step and the way out of j.
#[inline(never)]
pub fn walk(
    t: Transducer,
    m: &Machine,
    found: UsefulPairs,
    out: &pairs::Links,
    failure: Failure,
    steps: &mut [u32],
) -> Place
    requires standing { Standing t found out.now.link out.now.label }
    requires image_of { ImageOf t false m.now }
    requires differing { Differing t out.now.link out.now.label failure }
    requires steps_len { length steps.old ≡ most_steps }
    ensures { Fails t found.count steps.new result }
{
    let i = failure.from;
    let out = PairLinks {
        link: &out.link,
        label: &out.label,
    };
    let step = match failure.at {
        At::Start => {
            let end = way::leave(&out, i, steps, MIDDLE);
            return Place { start: MIDDLE, end };
        }
        At::Step(step) => step,
    };
    let mut ways_in = pairs::Links::new();
    pairs::ways_in(t, m, found, &mut ways_in);
    let into = PairLinks {
        link: &ways_in.link,
        label: &ways_in.label,
    };
    let round = way::round(&into, &out, i, steps);
    if witness::differs(t, &steps[round.start..round.end]) {
        return round;
    }
    way::through(&into, &out, i, step, steps)
}

// The tests at the pairs and at the steps from them. The contracts cite specs/Loops.antt.
ghost use Rattle.std.specs.Prelude.{◌≡◌, ◌≢◌, ◌↔◌, ◌<◌, true, get_or};
ghost use Rattle.product.specs.Numbers.{most_pairs, Label, PairIn};
ghost use Rattle.delays.specs.WaysOut.{level};
ghost use Rattle.delays.specs.Needs.{Passes, OneEmpty, Equation};

use crate::{At, Failure};
pub use delays::equation::OnWay;
use delays::equation::StepTo;
use delays::sides::{Sides, Words};
use delays::ways::Ways;
use product::machine::Machine;
use product::steps;
use product::steps::{END, PAIRS, Product};
use std::marker::Model;
use transducer::{StateSet, limits};
use worklist::Search;

// The tests of a transducer: its start states, its machine by input codes, and the ways out of its useful pairs.
#[derive(Drop)]
pub(crate) struct Tests<'a> {
    pub(crate) starts: StateSet,
    pub(crate) machine: &'a Machine,
    pub(crate) ways: Ways<'a>,
}

// Clauses see the start states and the lists.
impl<'a> Model for Tests<'a> {
    ghost use Rattle.equations.specs.Loops.{TestLists, Measured};

    ghost Value = { TestLists };

    ghost view = { λ x. record { starts = x.starts; machine = x.machine.now; ways = x.ways } };

    ghost invariant = { λ x. Measured (record { starts = x.starts; machine = x.machine.now; ways = x.ways }) };
}

// What the next pair on a way has, what is needed and the flags stays a clause (`NextHeld`, `NeedsAt`, `Flagged`): it is said by the lists of the tests,
// which they do not have.
impl Tests<'_> {
    ghost use Rattle.equations.specs.Loops.{Places, NextHeld, NeedsAt, Seen, Counts, EquationFrom, StepsTried, PairTried, AllTried, Flagged, WayTried};

    // The tests at all pairs, from the last one found to the first: the pairs that were found last have the longest ways out. The flags and the words are
    // lent one by one: of two fields behind one reference, one read and the other lent, there is no proof yet.
    pub(crate) fn try_pairs(
        &self,
        found: &Search<PAIRS>,
        tested: &mut [bool; PAIRS],
        sides: &mut Words,
        needs: &mut Words,
    ) -> Option<Failure>
        requires places { Places found.now.order found.now.count self.now.ways.gap }
        requires flagged { Flagged self.now tested.old }
        ensures { AllTried self.now result }
    {
        // Stays a range: the clauses speak of the places below the count (`Places`), and the last one comes first.
        for place in (0..found.count()).rev() {
            let v = found.node(place) as usize;
            if let Some(failure) = self.try_from(v, tested, sides, needs) {
                return Some(failure);
            }
        }
        None
    }

    // The tests at the pair v, unless it was tested. A level pair is tested on its own: nothing is needed there.
    fn try_from(
        &self,
        v: usize,
        tested: &mut [bool; PAIRS],
        sides: &mut Words,
        needs: &mut Words,
    ) -> Option<Failure>
        requires counts { Counts self.now v }
        requires flagged { Flagged self.now tested.old }
        ensures { WayTried self.now v tested.new result }
    {
        if tested[v] {
            return None;
        }
        if self.ways.is_level(v) {
            needs.hold(Sides {
                left: &[],
                right: &[],
            });
            return self.try_pair(v, None, needs);
        }
        self.try_way(v, tested, sides, needs)
    }

    // The tests at the pair v, which is not level, and at the pairs after it on the way out of it, up to one that is level or was tested. What the two
    // sides of the way write is written once, and what a pair needs is the front of what is left of it there.
    fn try_way(
        &self,
        v: usize,
        tested: &mut [bool; PAIRS],
        sides: &mut Words,
        needs: &mut Words,
    ) -> Option<Failure>
        requires counts { Counts self.now v × (get_or self.now.ways.gap v 0 ≢ level) }
        requires flagged { Flagged self.now tested.old }
        ensures { WayTried self.now v tested.new result }
    {
        self.ways.write_out(v, sides);
        let mut rest = sides.sides();
        let mut i = v;
        // Stays a while loop: it goes along links, and no iterator has them.
        while !self.ways.is_level(i) & !tested[i] {
            needs.hold(self.ways.lacking(i, rest));
            rest = self.ways.rest(i, rest);
            let next = self.ways.next(i).unwrap();
            let on_way = OnWay {
                pair: next,
                sides: rest,
            };
            if let Some(failure) = self.try_pair(i, Some(on_way), needs) {
                return Some(failure);
            }
            tested[i] = true;
            i = next;
        }
        None
    }

    // The tests at one pair: whether one of start states is level, and those at its steps. `needs` has what each side needs there, `next` the next pair on
    // its way out, if that is at hand.
    fn try_pair(&self, i: usize, next: Option<OnWay<'_>>, needs: &mut Words) -> Option<Failure>
        requires counts { Counts self.now i }
        requires next { NextHeld self.now next }
        requires needs { NeedsAt self.now i needs.old }
        ensures { PairTried self.now i result }
    {
        if !self.ways.is_level(i) & self.is_start(i) {
            return Some(Failure {
                from: i,
                at: At::Start,
            });
        }
        let step = self.first_failing(i, next, needs);
        step.map(|step| Failure {
            from: i,
            at: At::Step(step),
        })
    }

    // Whether v is a pair of start states.
    fn is_start(&self, v: usize) -> bool
        requires { v < most_pairs }
        ensures { (result ≡ true) ↔ PairIn self.now.starts self.now.starts v }
    {
        let first = self.starts.contains((v / limits::STATES) as u8);
        let second = self.starts.contains((v % limits::STATES) as u8);
        first & second
    }

    // The first step from i at which the equation does not hold.
    fn first_failing(&self, i: usize, next: Option<OnWay<'_>>, needs: &mut Words) -> Option<StepTo>
        requires counts { Counts self.now i }
        requires next { NextHeld self.now next }
        requires needs { NeedsAt self.now i needs.old }
        ensures { StepsTried self.now i result }
    {
        self.machine.kept();
        let product = Product {
            left: self.machine,
            right: self.machine,
        };
        let pair = i as u32;
        let mut last = None;
        let mut row = product.first_row(pair);
        // Stays a while loop, as the one in it: the rows and the steps are links, and no iterator has them.
        while row < END {
            let mut step = product.first_step(pair, row);
            while step < END {
                let here = StepTo {
                    label: steps::label(row, step),
                    to: product.target(pair, row, step) as usize,
                };
                if !self.passes(here, last, next, needs) {
                    return Some(here);
                }
                last = Some(here);
                step = product.step_after(pair, row, step);
            }
            row = product.row_after(pair, row);
        }
        None
    }

    // Whether a step passes. One that leads to the same pair as the last one and writes the same is not compared again.
    fn passes(
        &self,
        step: StepTo,
        last: Option<StepTo>,
        next: Option<OnWay<'_>>,
        needs: &mut Words,
    ) -> bool
        requires label { Label step.label × (step.to < most_pairs) }
        requires one_empty { OneEmpty needs.old }
        requires seen { Seen self.now.ways.gap (Equation self.now.ways.written self.now.ways.link self.now.ways.label needs.old.right needs.old.left) last }
        requires next { NextHeld self.now next }
        ensures passes { Passes self.now.ways.written self.now.ways.link self.now.ways.label self.now.ways.gap needs.old.right needs.old.left step.label step.to result }
        ensures kept { needs.new ≡ needs.old }
    {
        if let Some(last) = last
            && step.to == last.to
            && self.ways.same_step(step.label, last.label)
        {
            return true;
        }
        self.ways.passes(step, next, needs)
    }
}

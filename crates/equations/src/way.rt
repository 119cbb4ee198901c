// The ways into and out of a pair of states, and walks made of them, written as the labels of their steps. The contracts cite specs/Links.antt.
ghost use Rattle.std.specs.Prelude.{◌≡◌, ◌+◌, ◌≤◌, length};
ghost use Rattle.delays.specs.WaysOut.{Led};
ghost use Rattle.equations.specs.Links.{most_steps, middle, EnteredBy, LeftBy, StandsAt, round_of, through_of};

use delays::equation::StepTo;
use delays::links::PairLinks;
use product::steps::PAIRS;

// The place of the step in the middle of a walk.
pub const MIDDLE: usize = PAIRS - 1;
// The place behind it.
const BEHIND: usize = MIDDLE + 1;

// Where a walk stands in a list of labels: from the place `start` up to the place `end`.
// Stays two places, and no slice: the list is lent, and the next walk is written over the first one.
#[derive(Clone, Copy)]
pub struct Place {
    pub start: usize,
    pub end: usize,
}

// Writes the way into the pair i and out of it.
// That a pair has a way stays a clause (`Led`), here and below: it is said of one pair, and links have pairs without one.
pub fn round(into: &PairLinks, out: &PairLinks, i: usize, steps: &mut [u32]) -> Place
    requires enters { Led into.now.link.now into.now.label.now i }
    requires leaves { Led out.now.link.now out.now.label.now i }
    requires steps_len { length steps.old ≡ most_steps }
    ensures { StandsAt steps.new result (round_of into.now.link.now into.now.label.now out.now.link.now out.now.label.now i) }
{
    let start = enter(into, i, steps);
    let end = leave(out, i, steps, MIDDLE);
    Place { start, end }
}

// Writes the way into the pair i, a step from there, and the way out of the pair to which it leads.
pub fn through(
    into: &PairLinks,
    out: &PairLinks,
    i: usize,
    step: StepTo,
    steps: &mut [u32],
) -> Place
    requires enters { Led into.now.link.now into.now.label.now i }
    requires leaves { Led out.now.link.now out.now.label.now step.to }
    requires steps_len { length steps.old ≡ most_steps }
    ensures { StandsAt steps.new result
        (through_of into.now.link.now into.now.label.now out.now.link.now out.now.label.now i step.label step.to) }
{
    let start = enter(into, i, steps);
    steps[MIDDLE] = step.label;
    let past = leave(out, step.to, steps, BEHIND);
    Place { start, end: past }
}

// Writes the labels of the way into the pair v, its last step just before the middle; the place of its first step.
pub fn enter(links: &PairLinks, v: usize, steps: &mut [u32]) -> usize
    requires led { Led links.now.link.now links.now.label.now v }
    requires steps_len { length steps.old ≡ most_steps }
    ensures { EnteredBy links.now.link.now links.now.label.now v steps.old steps.new result }
{
    let mut at = MIDDLE;
    let mut node = v;
    while let Some(next) = links.next(node) {
        at -= 1;
        steps[at] = links.label(node);
        node = next;
    }
    at
}

// Writes the labels of the way out of the pair v from the place `start` on; the place past its last step.
// Stays beside `enter`, and both count their places: one goes backwards and the other forwards along links, which no iterator has.
pub fn leave(links: &PairLinks, v: usize, steps: &mut [u32], start: usize) -> usize
    requires led { Led links.now.link.now links.now.label.now v }
    requires steps_len { (length steps.old ≡ most_steps) × (start ≤ middle + 1) }
    ensures { LeftBy links.now.link.now links.now.label.now v steps.old steps.new start result }
{
    let mut at = start;
    let mut node = v;
    while let Some(next) = links.next(node) {
        steps[at] = links.label(node);
        at += 1;
        node = next;
    }
    at
}

// The ways out of pairs: their links, what their steps write, and of each pair the gap, by how many codes the two sides of its way out differ. The contracts
// cite specs/WaysOut.antt and specs/Needs.antt.
ghost use Rattle.std.specs.Prelude.{◌≡◌, ◌≢◌, ◌-◌, ◌+◌, ◌≤◌, ◌<◌, true, ◌↔◌, length, get_or, MatchOption};
ghost use Rattle.transducer.specs.Limits.{most_outputs};
ghost use Rattle.product.specs.Numbers.{most_pairs, Label};
ghost use Rattle.witness.specs.Sides.{is_right, taken_of};
ghost use Rattle.outputs.specs.Outputs.{Entries, count_at, Appends};
ghost use Rattle.delays.specs.WaysOut.{most_way, level, word_out, Lists, Led, GapIs, Order, Gaps, Grounds};
ghost use Rattle.delays.specs.Needs.{lack_of, SameStep};

use crate::links::PairLinks;
use crate::sides::Words;
use outputs::Outputs;
use product::steps::PAIRS;
use std::marker::Model;
use transducer::limits;
use witness::Side;
use worklist::Search;

// The gap of a pair whose two sides write equally much: more than one side of a way out can write.
pub const LEVEL: u16 = (limits::OUTPUTS * PAIRS) as u16;

// The ways out of the pairs that have one. A pair that has none has the gap 0.
// Gaps stay numbers, with 0 for none: `Gaps` and `GapIs` speak of such a list, and an Option for each would be twice as long.
#[derive(Drop)]
pub struct Ways<'a> {
    pub(crate) written: &'a Outputs,
    pub(crate) links: PairLinks<'a>,
    pub(crate) gap: [u16; PAIRS],
}

// Clauses see the four lists.
impl<'a> Model for Ways<'a> {
    ghost use Rattle.delays.specs.WaysOut.{WayLists, Grounds};

    ghost Value = { WayLists };

    ghost view = { λ w. record { written = w.written.now; link = w.links.link.now; label = w.links.label.now; gap = w.gap } };

    ghost invariant = { λ w. Grounds w.written.now w.links.link.now w.links.label.now w.gap };
}

impl<'a> Ways<'a> {
    // The ways out of the pairs that a search has found. Each gap is computed once: the pair to which a link leads was found earlier.
    pub fn of(written: &'a Outputs, links: PairLinks<'a>, found: &Search<PAIRS>) -> Ways<'a>
        requires entries { Entries written.now }
        requires order { Order links.link.now links.label.now found.now.order found.now.count }
        ensures written { result.written ≡ written.now }
        ensures link { result.link ≡ links.entry.link.now }
        ensures label { result.label ≡ links.entry.label.now }
        ensures long { length result.gap ≡ most_pairs }
        ensures gaps { Gaps written.now links.entry.link.now links.entry.label.now found.now.order found.now.count result.gap }
    {
        let mut gap = [0u16; PAIRS];
        // Stays a range: the clauses speak of the places below the count (`Order`).
        for place in 0..found.count() {
            let v = found.node(place) as usize;
            gap[v] = gap_of(written, &links, &gap, v);
        }
        Ways {
            written,
            links,
            gap,
        }
    }
}

// The gap of the pair v: that of the pair to which its link leads, and what the step between the two writes.
fn gap_of(written: &Outputs, links: &PairLinks, gap: &[u16], v: usize) -> u16
    requires entries { Entries written.now }
    requires gap_len { length gap.now ≡ most_pairs }
    requires led { Led links.now.link.now links.now.label.now v }
    requires gap_is { get_or links.now.link.now v 0 ≢ 0
        → GapIs written.now links.now.link.now links.now.label.now (get_or links.now.link.now v 0 - 1) (get_or gap.now (get_or links.now.link.now v 0 - 1) 0) }
    ensures { GapIs written.now links.now.link.now links.now.label.now v result }
{
    let Some(next) = links.next(v) else {
        return LEVEL;
    };
    let label = links.label(v);
    let left = written.count(Side::Left.taken(label));
    let right = written.count(Side::Right.taken(label));
    gap[next] + right - left
}

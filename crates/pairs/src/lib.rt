// Useful pairs of states (document 01, "Useful states and useful pairs"), and the ways into and out of them. The contracts cite
// specs/UsefulPairs.antt: `UsefulPairsOf`, what `useful_pairs` answers; and specs/Ways.antt: `WaysOut`,
// `Discovered` and `WayIn`, what `ways_out` and `ways_in` leave. specs/Promises.antt has what else the verdict may know of the pairs.
#![tactic(auto)]

ghost use Rattle.std.specs.Prelude.{true, false, ◌≡◌, ℕ, ◌-◌, ◌≤◌, ◌<◌, length, get_or, Ok};
ghost use Rattle.worklist.specs.Search.{Blank};
ghost use Rattle.transducer.specs.Valid.{Valid};
ghost use Rattle.transducer.specs.Accepted.{accepted_of};
ghost use Rattle.transducer.specs.Reversal.{reversed_of};
ghost use Rattle.product.specs.Machine.{ImageOf};
ghost use Rattle.product.specs.Numbers.{most_pairs};
ghost use Rattle.product.specs.Confined.{Marked};
ghost use Rattle.pairs.specs.UsefulPairs.{has_pair, is_member, no_pairs_of, pair_set_of, UsefulPairsOf};
ghost use Rattle.pairs.specs.Ways.{MovesBack, Tree, WaysOut, Discovered, WayIn, blank_links, link_of, Traced, Linked};

use product::machine::Machine;
use product::search;
use product::search::Confined;
use product::steps::{PAIRS, Product};
use transducer::refusals::Refusal;
use transducer::{Transducer, limits};
use worklist::Search;

// A set of pairs: member[32 p + q] says whether (p, q) is in it.
#[derive(Clone, Copy)]
pub struct PairSet {
    pub member: [bool; PAIRS],
}

// The useful pairs, and how many there are (document 01: u).
#[derive(Clone, Copy)]
pub struct UsefulPairs {
    pub set: PairSet,
    pub count: u16,
}

// For each useful pair a way, to two final states or backwards to two start states, as links: at the pair i, link[i] is 0 where the way ends, else 1 + the
// next pair, and label[i] the label of the step between the two. No other pair has a link. Links stay numbers with 0 for none: `Chain` of `worklist`, in
// which the contracts spell the ways, is of such lists, and an Option for each pair would be twice as long.
#[derive(Drop)]
pub struct Links {
    pub link: [u16; PAIRS],
    pub label: [u32; PAIRS],
}

impl PairSet {
    // The set with no pair.
    #[tactic(auto, unfolding(crate::specs::UsefulPairs::no_pairs_of))]
    pub fn empty() -> PairSet
        ensures { result ≡ no_pairs_of }
    {
        PairSet {
            member: [false; PAIRS],
        }
    }

    // Whether the pair (p, q) is in the set. A pair with a state over 31 is in no set.
    #[tactic(auto, unfolding(crate::specs::UsefulPairs::has_pair))]
    pub fn contains(self, p: u8, q: u8) -> bool
        ensures { result ≡ has_pair self p q }
    {
        let i = usize::from(p);
        let j = usize::from(q);
        i < limits::STATES && j < limits::STATES && self.member[i * limits::STATES + j]
    }
}

impl Links {
    // Links of which no pair has one: memory for a way.
    #[tactic(auto, unfolding(crate::specs::Ways::blank_links))]
    pub fn new() -> Links
        ensures { result ≡ blank_links }
    {
        Links {
            link: [0; PAIRS],
            label: [0; PAIRS],
        }
    }

    // Makes these the links of the pairs that a search has found: for the pair at each place, 1 + the pair at its parent's place, or 0 for a root; and the
    // label of the step between the two. They are lent: handed back, they would be copied more than once.
    fn follow(&mut self, found: &Search<PAIRS>)
        requires { Traced found.now.order found.now.parent found.now.via found.now.count }
        ensures linked { Linked found.now.order found.now.parent found.now.via self.new.link self.new.label found.now.count }
        ensures long { (length self.new.link ≡ most_pairs) × (length self.new.label ≡ most_pairs) }
    {
        self.link = [0; PAIRS];
        for place in 0..found.count() {
            let v = found.node(place) as usize;
            self.link[v] = link_to(found, found.parent(place));
            self.label[v] = found.via(place);
        }
    }
}

// The useful pairs of t, or the refusal of a transducer that is not accepted.
pub fn useful_pairs(t: Transducer) -> Result<UsefulPairs, Refusal>
    ensures { UsefulPairsOf t result }
{
    if !useful::accepted(t) {
        return Err(Refusal::Invalid);
    }
    let m = Machine::by_input(t);
    let back = Machine::by_input_reversed(t);
    let mut found = Search::<PAIRS>::new();
    search_back(t, &m, &back, &mut found);
    Ok(found_pairs(&found))
}

// The useful pairs of t, which is accepted and whose machine is m; `out` is made the ways out of them, whatever it held. `found` is left with the useful pairs
// in the order in which they were found: each after the one to which its link leads.
#[inline(never)]
pub fn ways_out(
    t: &Transducer,
    m: &Machine,
    found: &mut Search<PAIRS>,
    out: &mut Links,
) -> UsefulPairs
    requires t_value { accepted_of t.now ≡ true }
    requires image_of { ImageOf t.now false m.now }
    requires blank { Blank most_pairs found.old }
    ensures ways_out { WaysOut t.now result out.new.link out.new.label }
    ensures long { (length out.new.link ≡ most_pairs) × (length out.new.label ≡ most_pairs) }
    ensures discovered { Discovered t.now out.new.link found.new.order found.new.count }
    ensures count { result.count ≡ found.new.count }
{
    let back = Machine::by_input_reversed(*t);
    search_back(*t, m, &back, found);
    out.follow(found);
    found_pairs(found)
}

// Makes `into` a way in for each useful pair of t, those that `ways_out` has found, whatever it held. The search is confined to the useful pairs.
#[inline(never)]
pub fn ways_in(t: Transducer, m: &Machine, pairs: UsefulPairs, into: &mut Links)
    requires t_value { accepted_of t ≡ true }
    requires image_of { ImageOf t false m.now }
    requires useful_pairs_of { UsefulPairsOf t (Ok pairs) }
    ensures { WayIn t pairs.count into.new.link into.new.label }
{
    let allowed = mark(pairs.set);
    let mut found = Search::<PAIRS>::new();
    let forward = Confined {
        product: Product::new(m, m),
        starts: t.starts,
        starts2: t.starts,
        allowed: &allowed,
    };
    forward.search(&mut found);
    into.follow(&found);
}

// 1 for each pair in the set, 0 for each other.
fn mark(set: PairSet) -> [u32; PAIRS]
    ensures { Marked (is_member set) result most_pairs }
{
    let mut numbers = [0u32; PAIRS];
    for (v, number) in numbers.iter_mut().enumerate() {
        *number = u32::from(set.member[v]);
    }
    numbers
}

// 1 + the pair at the place `from` - 1, or 0 where `from` is 0.
#[tactic(auto, unfolding(crate::specs::Ways::link_of))]
fn link_to(found: &Search<PAIRS>, from: u32) -> u16
    requires from_in_bounds { from ≤ most_pairs }
    requires from_bound { 0 < from → get_or found.now.order (from - 1) 0 < most_pairs }
    ensures { result ≡ link_of found.now.order from }
{
    if from == 0 {
        return 0;
    }
    found.node(from - 1) as u16 + 1
}

// Finds the useful pairs, by two searches: the first finds all pairs that are reached from two start states, which are pairs of states of t; the
// second is from the pairs of final states over `back`, the machine of t reversed, confined to what the first has found. What it leaves is the
// second's.
#[inline(never)]
fn search_back(t: Transducer, m: &Machine, back: &Machine, found: &mut Search<PAIRS>)
    requires valid { Valid t }
    requires image_of { ImageOf t false m.now }
    requires image_of_2 { ImageOf (reversed_of t) false back.now }
    requires blank { Blank most_pairs found.old }
    ensures { Tree t t.finals (MovesBack t) found.new }
{
    let mut all = [0u32; PAIRS];
    search::mark_states(t.states, t.states, &mut all);
    let forward = Confined {
        product: Product::new(m, m),
        starts: t.starts,
        starts2: t.starts,
        allowed: &all,
    };
    forward.search(found);
    let mut reached = [0u32; PAIRS];
    found.again(&mut reached);
    let backward = Confined {
        product: Product::new(back, back),
        starts: t.finals,
        starts2: t.finals,
        allowed: &reached,
    };
    backward.search(found);
}

// The pairs that a search has found, and how many they are.
fn found_pairs(found: &Search<PAIRS>) -> UsefulPairs
    requires { found.now.count ≤ most_pairs }
    ensures { result ≡ record { set = pair_set_of found.now.rank; count = found.now.count } }
{
    UsefulPairs {
        set: set_of(found.ranks()),
        count: found.count() as u16,
    }
}

// Those pairs: the ones whose rank is not 0.
fn set_of(rank: &[u32; PAIRS]) -> PairSet
    ensures { result ≡ pair_set_of rank.now }
{
    let mut member = [false; PAIRS];
    for (v, flag) in member.iter_mut().enumerate() {
        *flag = 0 < rank[v];
    }
    PairSet { member }
}

// The ways out of a small transducer, as a crate above `delays` uses them.
ghost use Rattle.std.specs.Prelude.{◌≡◌, ◌≢◌, true, ◌-◌, ◌<◌, get_or};
ghost use Rattle.transducer.specs.Accepted.{accepted_of};
ghost use Rattle.product.specs.Numbers.{most_pairs};
ghost use Rattle.delays.specs.Needs.{WayWords};

use delays::links::PairLinks;
use delays::sides::{Sides, Words};
use delays::ways::Ways;
use outputs::Outputs;
use pairs::Links;
use product::machine::Machine;
use product::steps::PAIRS;
use std::process::Abort;
use transducer::{InputCode, OutputCode, StateSet, Transducer, Transition};
use worklist::Search;

// What is left of the words of a way out behind its first step is what the next pair's way out writes. Of the pair (1, 2), with the number 34, the left side
// writes nothing and the right side 5 and then 6; of (2, 1), 65, the other way round.
#[test]
fn what_is_left_of_a_way(rt: HostRuntime) {
    let t = two_ways();
    match pairs::useful_pairs(t) {
        Ok(useful) => {
            assert_eq!(rt; useful.count, 10);
            let seen = ways_seen(&rt, &t);
            assert_eq!(rt; seen, 3, "both pairs are found, and have a next one");
        }
        Err(_) => {
            assert!(rt; false, "the transducer is refused");
        }
    }
}

// Looks at the two pairs, and says which of them are found: 1 and 2, added up.
fn ways_seen(rt: &impl Abort, t: &Transducer) -> u32
    requires { accepted_of t.now ≡ true }
{
    let m = Machine::by_input(*t);
    let mut found = Search::<PAIRS>::new();
    let mut out = Links::new();
    pairs::ways_out(t, &m, &mut found, &mut out);
    let written = Outputs::of(*t);
    let links = PairLinks {
        link: &out.link,
        label: &out.label,
    };
    let ways = Ways::of(&written, links, &found);
    let mut words = Words::new();
    let mut seen: u32 = 0;
    for place in 0..found.count() {
        let v = found.node(place) as usize;
        if ways.next(v).is_some() {
            let rest = left_behind(&ways, v, &mut words);
            if v == 34 {
                assert_eq!(rt; rest.left, [].as_slice());
                assert_eq!(rt; rest.right, [6].as_slice());
                seen |= 1;
            }
            if v == 65 {
                assert_eq!(rt; rest.left, [6].as_slice());
                assert_eq!(rt; rest.right, [].as_slice());
                seen |= 2;
            }
            let sides = words.sides();
            if v == 34 {
                assert_eq!(rt; sides.left, [].as_slice());
                assert_eq!(rt; sides.right, [5, 6].as_slice());
            }
            if v == 65 {
                assert_eq!(rt; sides.left, [5, 6].as_slice());
                assert_eq!(rt; sides.right, [].as_slice());
            }
        }
    }
    seen
}

// What is left of the words of a pair that counts, which are written into `words`: just those of the next pair. Nothing is asked but that the pair counts, and
// has a next one: what is asked of a caller of `write_out` and `rest` is no more, and what they promise is enough.
fn left_behind<'a>(ways: &Ways<'_>, v: usize, words: &'a mut Words) -> Sides<'a>
    requires counts { (v < most_pairs) × (get_or ways.now.gap v 0 ≢ 0) }
    requires ahead { get_or ways.now.link v 0 ≢ 0 }
    ensures { WayWords ways.now.written ways.now.link ways.now.label (get_or ways.now.link v 0 - 1) result.left.now result.right.now }
{
    ways.write_out(v, words);
    ways.rest(v, words.sides())
}

// Start 0, final 5. One way reads 1 2 3 by 0, 1, 3, 5 and writes 5 6 at once; the other by 0, 2, 4, 5, and writes 5 at its second line and 6 at its third.
fn two_ways() -> Transducer {
    let none = StateSet::empty();
    let mut t = transducer::blank();
    t.states = 6;
    t.starts = none.with(0);
    t.finals = none.with(5);
    t.count = 6;
    t.transitions[0] = line(0, 1, 1, 2, 5, 6);
    t.transitions[1] = line(0, 2, 1, 0, 0, 0);
    t.transitions[2] = line(1, 3, 2, 0, 0, 0);
    t.transitions[3] = line(2, 4, 2, 1, 5, 0);
    t.transitions[4] = line(3, 5, 3, 0, 0, 0);
    t.transitions[5] = line(4, 5, 3, 1, 6, 0);
    t.useful = none.with(0).with(1).with(2).with(3).with(4).with(5);
    t
}

// A transition that writes the first `count` of two codes.
fn line(from: u8, to: u8, input: u8, count: u8, first: u8, second: u8) -> Transition {
    let mut v = Transition::clear();
    v.from = from;
    v.to = to;
    v.input = InputCode(input);
    v.count = count;
    v.output[0] = OutputCode(first);
    v.output[1] = OutputCode(second);
    v
}

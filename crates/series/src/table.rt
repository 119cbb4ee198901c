// The result from the joined pairs and the numbers of the steps between them: the state of each pair, the start and final states, the transitions.
ghost use Rattle.std.specs.Prelude.{◌≡◌, true, false, cond, ℕ, ◌≤◌, ◌<◌, length, get_or};
ghost use Rattle.transducer.specs.Limits.{most_states, most_transitions};
ghost use Rattle.transducer.specs.StateSet.{with_state};
ghost use Rattle.transducer.specs.Valid.{Valid};
ghost use Rattle.product.specs.Machine.{ImageOf};
ghost use Rattle.product.specs.Numbers.{most_pairs, no_transition};
ghost use Rattle.joints.specs.Joint.{one_code_of};
ghost use Rattle.joints.specs.Found.{among};
ghost use Rattle.series.specs.Result.{pairs, both_have, both_in_of, pair_transducer};
ghost use Rattle.series.specs.Parts.{steps_of, Numbered, Small, Placed, Written, takes, line_of};

use crate::Series;
use product::machine::NO_TRANSITION;
use product::steps;
use product::steps::{NO_STEP, PAIRS};
use transducer::{StateSet, Transducer, Transition, limits};

// The states of one side of a pair.
const STATES: u32 = limits::STATES as u32;

// The state of each pair, if it is joined: as many joined pairs stand before it. And how many there are.
#[derive(Drop)]
pub struct Numbering {
    pub states: [u32; PAIRS],
    pub count: u32,
}

// Numbers the joined pairs.
pub fn number(pairs: &[u32; PAIRS]) -> Numbering
    ensures { Numbered (among pairs.now) result.states result.count }
{
    let mut numbering = Numbering {
        states: [0; PAIRS],
        count: 0,
    };
    for (v, flag) in pairs.iter().enumerate() {
        numbering.states[v] = numbering.count;
        if *flag != 0 {
            numbering.count += 1;
        }
    }
    numbering
}

// The transducer whose states are the joined pairs and whose transitions are the steps of the list, keeping its useful states.
pub fn table(series: &Series, numbering: &Numbering, list: &[u32]) -> Transducer
    requires valid { Valid series.now.first.now }
    requires valid_2 { Valid series.now.second.now }
    requires first_value { one_code_of series.now.first.now ≡ true }
    requires image_of { ImageOf series.now.first.now true series.now.product.left.now }
    requires image_of_2 { ImageOf series.now.second.now false series.now.product.right.now }
    requires numbered { Numbered (among series.now.pairs.now)
        numbering.now.states numbering.now.count }
    requires n_le_most_states { numbering.now.count ≤ most_states }
    requires le_n { 1 ≤ numbering.now.count }
    requires list_value { list.now ≡ steps_of series.now.product.left.now series.now.product.right.now
        (among series.now.pairs.now) }
    requires k_le_most_transitions { length list.now ≤ most_transitions }
    ensures { result ≡ pair_transducer series.now.first.now series.now.second.now
        (among series.now.pairs.now) }
{
    let transitions = transitions(series, &numbering.states, list);
    let starts = both_in(series.pairs, series.first.starts, series.second.starts);
    let finals = both_in(series.pairs, series.first.finals, series.second.finals);
    let pairs = Transducer {
        states: numbering.count as u8,
        starts,
        finals,
        count: list.len() as u16,
        transitions,
        useful: StateSet::empty(),
    };
    useful::keep(pairs)
}

// The transitions that the steps of the list become; the places beyond are clear.
fn transitions(
    series: &Series,
    states: &[u32; PAIRS],
    list: &[u32],
) -> [Transition; limits::TRANSITIONS]
    requires small { Small states.now }
    requires list_len { length list.now ≤ most_transitions }
    requires by_index { (i : ℕ) → i < length list.now
        → Placed series.now.product.left.now series.now.product.right.now (get_or list.now i 0) }
    ensures { Written series.now.first.now series.now.second.now series.now.product.left.now
        series.now.product.right.now states.now list.now (length list.now) result }
{
    let clear = Transition::clear();
    let mut lines = [clear; limits::TRANSITIONS];
    for (i, step) in list.iter().enumerate() {
        let label = *step % NO_STEP;
        let l = steps::left_of(label);
        let m = steps::right_of(label);
        let v = *step / NO_STEP;
        let to = series.product.target(v, l as u16, m as u16);
        let x = taken(series.first, l);
        let y = taken(series.second, m);
        lines[i] = line(states, v, to, x, y);
    }
    lines
}

// What a side takes by its number: a transition of t, or the clear one, for nothing.
#[tactic(auto, unfolding(crate::specs::Parts::takes))]
fn taken(t: &Transducer, l: u32) -> Transition
    requires { l ≤ no_transition }
    ensures { result ≡ takes t.now l }
{
    if l == NO_TRANSITION as u32 {
        return Transition::clear();
    }
    t.transitions[l as usize]
}

// The line from the state of one pair to the state of another that reads what x reads and writes what y writes.
fn line(states: &[u32; PAIRS], v: u32, to: u32, x: Transition, y: Transition) -> Transition
    requires small { Small states.now }
    requires v_lt_most_pairs { v < most_pairs }
    requires to_lt_most_pairs { to < most_pairs }
    ensures { result ≡ line_of (get_or states.now v 0) (get_or states.now to 0) x y }
{
    let output = y.output;
    Transition {
        from: states[v as usize] as u8,
        to: states[to as usize] as u8,
        input: x.input,
        count: y.count,
        output,
    }
}

// The states of the joined pairs whose first state is in s and whose second is in s2.
fn both_in(flags: &[u32; PAIRS], s: StateSet, s2: StateSet) -> StateSet
    requires { length (pairs (among flags.now)) ≤ most_states }
    ensures { result ≡ both_in_of (among flags.now) s s2 }
{
    let mut set = StateSet::empty();
    // Stays counted by hand: a filter that is numbered before it and again behind it is no plainer.
    let mut n: u8 = 0;
    for (v, flag) in flags.iter().enumerate() {
        if *flag != 0 {
            set = with_both(set, n, s, s2, v as u32);
            n += 1;
        }
    }
    set
}

// The set with n added if the two states of the pair v are in s and in s2.
fn with_both(set: StateSet, n: u8, s: StateSet, s2: StateSet, v: u32) -> StateSet
    requires { v < most_pairs }
    ensures { result ≡ cond (both_have s s2 v) (with_state set n) set }
{
    let one = s.contains((v / STATES) as u8);
    let other = s2.contains((v % STATES) as u8);
    if one & other {
        return set.with(n);
    }
    set
}

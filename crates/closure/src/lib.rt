// For each state the states that transitions which read nothing and write nothing lead to from it. The contracts cite specs/Closure.antt.
#![tactic(auto)]

ghost use Rattle.std.specs.Prelude.{◌≡◌, ◌<◌, ◌+◌, List, ℕ, length};
ghost use Rattle.std.specs.List.{between};
ghost use Rattle.transducer.specs.Limits.{most_states};
ghost use Rattle.product.specs.Machine.{count_of};
ghost use Rattle.closure.specs.Closure.{most_flags, flag_at_of, Sound, ClosureOf, Own, Takes, Joins, Followed, Passed};

use outputs::Outputs;
use product::machine::Machine;
use std::marker::Model;
use transducer::limits::STATES;

// The places of the list.
pub const FLAGS: usize = STATES * STATES;

// The closures of all states, as one list of flags: the flag of q and p stands at the place 32 q + p. Flags stay numbers, 0 or 1: 32 of them are marked at
// once as the larger of two bytes, and the passes end since fewer of them are 0 each time (`zeros`).
#[derive(Drop)]
pub struct Closures {
    flags: [u8; FLAGS],
}

impl Model for Closures {
    ghost Value = { List ℕ };

    ghost view = { λ c. c.flags };

    ghost invariant = { λ c. length c.flags ≡ most_flags };
}

impl Closures {
    // The closures: each state is in its own; then, pass after pass, a state that such a transition leaves takes over the closure of the one that it
    // enters, until a pass brings nothing new.
    pub fn new(m: &Machine, written: &Outputs) -> Self
        ensures { ClosureOf m.now written.now result }
    {
        m.kept();
        let mut closures = Closures::own();
        'passes: while closures.pass(m, written) {}
        closures
    }

    // The flags of the states in the closure of q.
    pub fn row(&self, q: u16) -> &[u8]
        requires { q < most_states }
        ensures value { result.now ≡ between (flag_at_of q 0) (flag_at_of q most_states) self.now }
        ensures len { length result.now ≡ most_states }
    {
        let first = q as usize * STATES;
        &self.flags[first..first + STATES]
    }

    // Each state alone in its own closure.
    fn own() -> Self
        ensures { Own most_states result }
    {
        let mut flags = [0; FLAGS];
        for q in 0..STATES {
            flags[q * STATES + q] = 1;
        }
        Closures { flags }
    }

    // Goes through the transitions once; whether a flag is new.
    fn pass(&mut self, m: &Machine, written: &Outputs) -> bool
        requires { Sound m.now written.now self.old }
        ensures { Passed m.now written.now (count_of m.now) self.old self.new result }
    {
        let mut changed = false;
        for l in 0..m.count() {
            changed |= self.follow(m, written, l);
        }
        changed
    }

    // What transition l brings: nothing where it reads or writes something; whether a flag is new.
    fn follow(&mut self, m: &Machine, written: &Outputs, l: u16) -> bool
        requires { l < count_of m.now }
        ensures { Followed m.now written.now l self.old self.new result }
    {
        m.kept();
        if m.key(l) != 0 {
            return false;
        }
        if written.count(u32::from(l)) != 0 {
            return false;
        }
        self.join(m.from(l), m.to(l))
    }

    // The state q takes over the flags of the state s; whether one is new.
    fn join(&mut self, q: u16, s: u16) -> bool
        requires q_lt_most_states { q < most_states }
        requires s_lt_most_states { s < most_states }
        ensures { Joins q s most_states self.old self.new result }
    {
        let to = q as usize * STATES;
        let from = s as usize * STATES;
        let mut changed = false;
        for p in 0..STATES {
            changed |= self.take(to + p, from + p);
        }
        changed
    }

    // Sets the flag at the place `to` if that at `from` is set; whether it is new.
    fn take(&mut self, to: usize, from: usize) -> bool
        requires to_in_bounds { to < most_flags }
        requires from_in_bounds { from < most_flags }
        ensures { Takes to from self.old self.new result }
    {
        if self.flags[from] == 0 {
            return false;
        }
        if self.flags[to] != 0 {
            return false;
        }
        self.flags[to] = 1;
        true
    }
}

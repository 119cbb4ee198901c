// Sets of states as numbers of 32 binary digits (specs/Sets.antt), and what is reached from such a set. They stay plain numbers: a struct would hand on
// the same operators, and say no more.
ghost use Rattle.std.specs.Prelude.{◌↔◌, ◌≡◌, ℕ, ◌^◌, ◌<◌, length, get_or, set};
ghost use Rattle.std.specs.Int.Bits.{bit_or};
ghost use Rattle.transducer.specs.Limits.{most_states};
ghost use Rattle.transducer.specs.Reversal.{reversed_of};
ghost use Rattle.transducer.specs.StateSet.{In};
ghost use Rattle.transducer.specs.Valid.{Valid};
ghost use Rattle.useful.specs.Sets.{has_of, Has, Sets, StepsOf, Reached};

use transducer::{StateSet, Transducer, limits};

// The set as a number.
pub fn number(s: StateSet) -> u32
    ensures { (q : ℕ) → Has result q ↔ In s q }
{
    let mut set: u32 = 0;
    for (q, inside) in s.member.iter().enumerate() {
        if *inside {
            set |= one(q as u32);
        }
    }
    set
}

// The set of the state q alone.
fn one(q: u32) -> u32
    requires { q < most_states }
    ensures { result ≡ 2 ^ q }
{
    1 << q
}

// Whether the state q is in the set.
pub fn has(set: u32, q: u32) -> bool
    requires { q < most_states }
    ensures { result ≡ has_of set q }
{
    (set >> q) % 2 == 1
}

// For each state the set of those that transitions lead to from it, and of those from which they lead to it.
pub fn steps(t: Transducer) -> ([u32; limits::STATES], [u32; limits::STATES])
    requires { Valid t }
    ensures ahead { StepsOf t result.0 }
    ensures back { StepsOf (reversed_of t) result.1 }
{
    let mut ahead = [0u32; limits::STATES];
    let mut back = [0u32; limits::STATES];
    for v in &t.transitions[..t.count as usize] {
        add(&mut ahead, v.from, v.to);
        add(&mut back, v.to, v.from);
    }
    (ahead, back)
}

// Adds the state q to the set of the state p.
fn add(list: &mut [u32], p: u8, q: u8)
    requires list_len { length list.old ≡ most_states }
    requires p_lt_most_states { p < most_states }
    requires q_lt_most_states { q < most_states }
    ensures { list.new ≡ set list.old p (bit_or (get_or list.old p 0) (2 ^ q)) }
{
    list[p as usize] |= one(q as u32);
}

// The set of the states that are reached from those of a set: as long as one of them is not done, the lowest of these adds its own set.
pub fn reached(list: &[u32], from: u32) -> u32
    requires { Sets list.now }
    ensures { (q : ℕ) → Has result q ↔ Reached list.now from q }
{
    let mut found = from;
    let mut done: u32 = 0;
    while found != done {
        let q = (found ^ done).trailing_zeros();
        done |= one(q);
        found |= list[q as usize];
    }
    found
}

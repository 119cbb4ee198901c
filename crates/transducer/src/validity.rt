// The test of a transducer's rules (specs/Valid.antt).
ghost use Rattle.std.specs.Prelude.{◌&&◌, ◌≡◌, ℕ, ◌≤◌, ◌<◌, length};
ghost use Rattle.transducer.specs.Limits.{most_transitions, most_outputs};
ghost use Rattle.transducer.specs.Transition.{at};
ghost use Rattle.transducer.specs.Valid.{all_below, codes_of, line_of, clear_of, place_of, set_of, Tested};

use crate::{StateSet, Transducer, Transition, limits};

// Whether t keeps the rules of document 01, "Codes and tables": the counts are within their limits, every state and code is in its range,
// and the places beyond the counts hold 0.
#[tactic(auto, unfolding(crate::specs::Valid::valid_of))]
pub fn valid(t: Transducer) -> bool
    ensures { Tested t result }
{
    sized(t);
    1 <= t.states
        && t.states as usize <= limits::STATES
        && set_ok(t.states, t.starts)
        && set_ok(t.states, t.finals)
        && t.count as usize <= limits::TRANSITIONS
        && places_ok(t)
}

// Whether no state from n on is in s.
fn set_ok(n: u8, s: StateSet) -> bool
    ensures { result ≡ set_of n s }
{
    s.member.iter().skip(n as usize).all(|inside| !*inside)
}

// Does nothing: that the outputs of t have their lengths is promised also of a value that fails, where the test ends early.
fn sized(t: Transducer)
    ensures { (l : ℕ) → l < most_transitions → length (at t l).output ≡ most_outputs }
{
    for v in &t.transitions {
        whole(*v);
    }
}

// The same for one transition.
fn whole(v: Transition)
    ensures { length v.output ≡ most_outputs }
{}

// Whether every transition of t is as it should be: below the count one in use, from there on one that is not.
fn places_ok(t: Transducer) -> bool
    requires { t.count ≤ most_transitions }
    ensures { result ≡ all_below most_transitions (place_of t) }
{
    let count = t.count as usize;
    t.transitions[..count].iter().all(|v| line_ok(t.states, *v))
        && t.transitions[count..].iter().all(|v| clear_ok(*v))
}

// Whether v is a transition in use among n states.
#[tactic(auto, unfolding(crate::specs::Valid::line_of, crate::specs::Valid::used_of))]
pub fn line_ok(n: u8, v: Transition) -> bool
    ensures value { result ≡ line_of n v }
    ensures output_len { length v.output ≡ most_outputs }
{
    v.from < n
        && v.to < n
        && v.input.0 <= limits::CODE
        && v.count as usize <= limits::OUTPUTS
        && codes_ok(v)
}

// Whether every place of v's output is as it should be: below the count a code, from there on 0.
fn codes_ok(v: Transition) -> bool
    requires { v.count ≤ most_outputs }
    ensures { result ≡ codes_of v }
{
    let count = v.count as usize;
    v.output[..count]
        .iter()
        .all(|code| 1 <= code.0 && code.0 <= limits::CODE)
        && v.output[count..].iter().all(|code| code.0 == 0)
}

// Whether v is a transition that is not in use.
fn clear_ok(v: Transition) -> bool
    ensures { result ≡ (clear_of v && codes_of v) }
{
    v == Transition::clear()
}

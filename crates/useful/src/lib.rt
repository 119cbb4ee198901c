// The useful states of a transducer, those through which an accepting path passes: worked out, compared with the set that a value keeps, and put into a
// value that is made. A state is useful exactly when it is reached from a start state by transitions and from a final state against them: two sets, which
// `sets` works out as numbers. The contract of `useful_states` cites specs/UsefulStates.antt; those of `accepted` and `keep` cite definitions of the crate
// `transducer`.
#![tactic(auto)]

ghost use Rattle.std.specs.Prelude.{◌≡◌};
ghost use Rattle.transducer.specs.Valid.{Valid};
ghost use Rattle.transducer.specs.Lines.{useful_in, keeping};
ghost use Rattle.transducer.specs.Accepted.{Asked};
ghost use Rattle.useful.specs.UsefulStates.{CommonOf, UsefulStatesOf};

use transducer::refusals::Refusal;
use transducer::{StateSet, Transducer, limits, validity};

mod sets;

// What every entry point on a transducer's value but the panel's look asks first: whether it keeps the rules, and the set of its useful states.
pub fn accepted(t: Transducer) -> bool
    ensures { Asked t result }
{
    validity::valid(t) && t.useful == worked_out(t)
}

// t, keeping the set of its useful states, whatever it kept: the last that a call does which makes a transducer. That it keeps the rules stays a `requires`
// here and below, and no type: document 01's value may break them.
#[tactic(auto, unfolding(transducer::specs::Lines::keeping))]
pub fn keep(t: Transducer) -> Transducer
    requires { Valid t }
    ensures { result ≡ keeping t }
{
    Transducer {
        useful: worked_out(t),
        ..t
    }
}

// The useful states of t, or the refusal of a value that is not accepted. They are worked out where the value is tested, and are then those that it keeps.
pub fn useful_states(t: Transducer) -> Result<StateSet, Refusal>
    ensures { UsefulStatesOf t result }
{
    if accepted(t) {
        Ok(t.useful)
    } else {
        Err(Refusal::Invalid)
    }
}

// The useful states of t: those that are reached from a start state and from which a final state is reached.
fn worked_out(t: Transducer) -> StateSet
    requires { Valid t }
    ensures { result ≡ useful_in t }
{
    let (ahead, back) = sets::steps(t);
    let into = sets::reached(&ahead, sets::number(t.starts));
    let out = sets::reached(&back, sets::number(t.finals));
    common(into, out)
}

// The states that are in both sets.
fn common(a: u32, b: u32) -> StateSet
    ensures { CommonOf a b result }
{
    let mut member = [false; limits::STATES];
    for (q, inside) in member.iter_mut().enumerate() {
        *inside = sets::has(a, q as u32) & sets::has(b, q as u32);
    }
    StateSet { member }
}

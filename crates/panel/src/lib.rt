// The panel's look (document 02, job 7): the set of useful states that a transducer keeps, as it stands. That it is the set of useful states of every
// transducer that the calls made is `LooksUseful` of specs/Makings.antt.
#![tactic(auto)]

ghost use Rattle.std.specs.Prelude.{◌≡◌};

use transducer::{StateSet, Transducer};

// The set that t keeps, whatever value t is: nothing is checked, and nothing is worked out.
pub fn look(t: Transducer) -> StateSet
    ensures { result ≡ t.useful }
{
    t.useful
}

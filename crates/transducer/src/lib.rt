// A finite transducer (document 01: a table) as a value: its types, its sets of states, the blank transducer, the test of its rules, and the test of
// a word's bytes. The contracts cite specs/StateSet.antt, specs/Valid.antt and specs/Codes.antt. What a transducer means, its paths and its relation, is
// in specs/Paths.antt and the files after it, which the crates above cite.
#![tactic(auto)]

ghost use Rattle.std.specs.Prelude.{◌≡◌};
ghost use Rattle.transducer.specs.StateSet.{has, with_state, no_states};
ghost use Rattle.transducer.specs.Transition.{as_input};
ghost use Rattle.transducer.specs.Blank.{clear_transition, blank_transducer};

pub mod codes;
pub mod limits;
pub mod refusals;
pub mod validity;

// A code of the input alphabet, 1 to limits::CODE; in a transition 0 means that it reads nothing. The two kinds of codes stay two types, and not one with
// a parameter: the alphabets are apart, and have only their size in common.
#[derive(Clone, Copy, PartialEq, Eq)]
pub struct InputCode(pub u8);

// A code of the output alphabet, 1 to limits::CODE.
#[derive(Clone, Copy, PartialEq, Eq)]
pub struct OutputCode(pub u8);

// A transition (document 01: a line): it leaves the state `from`, enters `to`, reads `input` and writes the first `count` codes of `output`. Here and below
// the count stays beside its array: values are of fixed size, and may break each rule (document 01, "Codes and tables").
#[derive(Clone, Copy, PartialEq, Eq)]
pub struct Transition {
    pub from: u8,
    pub to: u8,
    pub input: InputCode,
    pub count: u8,
    pub output: [OutputCode; limits::OUTPUTS],
}

// A set of states: member[q] says whether q is in it.
#[derive(Clone, Copy, PartialEq, Eq)]
pub struct StateSet {
    pub member: [bool; limits::STATES],
}

// A transducer (document 01: a table) with the states 0 to states - 1 and the first `count` of `transitions`. It keeps the set of its useful states.
// That it keeps the rules stays a clause of those who need it (`Valid`, `accepted_of`), and no type: the value may break them (document 01). So does `Shaped`:
// of the arrays inside its array a proof needs a loop, which the test of a value has (`sized` of `validity`).
#[derive(Clone, Copy)]
pub struct Transducer {
    pub states: u8,
    pub starts: StateSet,
    pub finals: StateSet,
    pub count: u16,
    pub transitions: [Transition; limits::TRANSITIONS],
    pub useful: StateSet,
}

impl OutputCode {
    // The same number as an input code: what one transducer writes and the next one reads.
    // Stays a method, and no `From`: the definition of this name (document 02, job 3) is the only place that joins the two alphabets.
    pub fn as_input(self) -> InputCode
        ensures { result ≡ as_input self }
    {
        InputCode(self.0)
    }
}

impl StateSet {
    // The set with no state.
    pub fn empty() -> StateSet
        ensures { result ≡ no_states }
    {
        StateSet {
            member: [false; limits::STATES],
        }
    }

    // Whether the state s is in the set. A number from limits::STATES on is in no set.
    // This and `with` stay entry points that take the set by value: document 01 (DECISIONS 01.1).
    #[tactic(auto, unfolding(crate::specs::StateSet::has))]
    pub fn contains(self, s: u8) -> bool
        ensures { result ≡ has self s }
    {
        let place = s as usize;
        place < limits::STATES && self.member[place]
    }

    // The set with the state s added. Adding a number from limits::STATES on gives the same set.
    #[tactic(auto, unfolding(crate::specs::StateSet::with_state))]
    pub fn with(mut self, s: u8) -> StateSet
        ensures { result ≡ with_state self s }
    {
        let place = s as usize;
        if place < limits::STATES {
            self.member[place] = true;
        }
        self
    }
}

impl Transition {
    // A transition that is not in use: every place holds 0.
    pub fn clear() -> Transition
        ensures { result ≡ clear_transition }
    {
        Transition {
            from: 0,
            to: 0,
            input: InputCode(0),
            count: 0,
            output: [OutputCode(0); limits::OUTPUTS],
        }
    }
}

// The blank transducer: one state and nothing else.
#[tactic(auto, unfolding(crate::specs::Blank::blank_transducer))]
pub fn blank() -> Transducer
    ensures { result ≡ blank_transducer }
{
    Transducer {
        states: 1,
        starts: StateSet::empty(),
        finals: StateSet::empty(),
        count: 0,
        transitions: [Transition::clear(); limits::TRANSITIONS],
        useful: StateSet::empty(),
    }
}

// The search for an accepting path of a transducer that reads a given input word. A node is a position in the word and a state
// (specs/Nodes.antt); the worklist search over the nodes begins at the start states, before the word, and stops at the first final state that
// it meets at the word's end. It keeps of each node its parent and the transition between them, which spell the path (specs/Answers.antt).
#![tactic(auto)]

ghost use Rattle.std.specs.Prelude.{◌≡◌, ◌&&◌, ◌<◌, ◌≤◌, eqb, length};
ghost use Rattle.transducer.specs.Limits.{most_states};
ghost use Rattle.transducer.specs.StateSet.{In, has};
ghost use Rattle.transducer.specs.Transition.{word_of};
ghost use Rattle.transducer.specs.Valid.{Valid};
ghost use Rattle.worklist.specs.Search.{Blank, Rooted};
ghost use Rattle.product.specs.Machine.{Leaves};
ghost use Rattle.wordsearch.specs.Limits.{most_word, most_nodes};
ghost use Rattle.wordsearch.specs.Nodes.{position_of, state_of, Leads, Room, Lent, Ready, Done, Ended};
ghost use Rattle.wordsearch.specs.Answers.{NodeOf, Answered};

use product::machine::{Machine, NO_TRANSITION};
use transducer::{StateSet, Transducer};
use worklist::Search;

pub mod limits;
pub mod way;

// The states of a position.
const STATES: u32 = transducer::limits::STATES as u32;

// A place of the search from which the parents lead back along an accepting path that reads the word, or None where no such path is. The search
// has found nothing yet, and has places for the word's nodes.
pub fn find<const N: usize>(t: Transducer, input: &[u8], found: &mut Search<N>) -> Option<u32>
    requires valid { Valid t }
    requires room { Room (length input.now) N }
    requires blank { Blank N found.old }
    ensures { Answered t N found.new (word_of input.now) result }
{
    let starts = t.starts;
    let finals = t.finals;
    let m = Machine::by_input(t);
    search(&m, starts, finals, input, found)
}

// Finds the nodes to which transitions lead from the start states, in order, until none is left or one is met where a path ends: its place, or
// None.
// The machine and the word stay parameters, beside the search that is changed: a struct of the two would say no more than they do.
fn search<const N: usize>(
    m: &Machine,
    starts: StateSet,
    finals: StateSet,
    input: &[u8],
    found: &mut Search<N>,
) -> Option<u32>
    requires lent { Lent input.now N }
    requires blank { Blank N found.old }
    ensures { Ended m.now input.now starts finals N found.new result }
{
    roots(starts, found);
    let mut head: u32 = 0;
    // Stays a while loop: what it goes over grows meanwhile.
    while head < found.count() {
        if ends(finals, input, found.node(head)) {
            return Some(head);
        }
        expand(m, input, found, head);
        head += 1;
    }
    None
}

// Visits each start state, at the front of the word.
fn roots<const N: usize>(starts: StateSet, found: &mut Search<N>)
    requires most_states_in_bounds { most_states ≤ N }
    requires blank { Blank N found.old }
    ensures { Rooted (In starts) N found.new N }
{
    for q in 0..STATES {
        if starts.contains(q as u8) {
            found.visit(q, 0, 0);
        }
    }
}

// Whether the node is one where an accepting path ends: the word's end and a final state.
fn ends(finals: StateSet, input: &[u8], node: u32) -> bool
    ensures { result ≡ (eqb (position_of node) (length input.now) && has finals (state_of node)) }
{
    ((node / STATES) as usize == input.len()) & finals.contains((node % STATES) as u8)
}

// Visits each node to which a transition leads from the node at the place `head`.
fn expand<const N: usize>(m: &Machine, input: &[u8], found: &mut Search<N>, head: u32)
    requires lent { Lent input.now N }
    requires ready { Ready m.now input.now N found.old head }
    ensures { Done m.now input.now N found.old found.new head }
{
    m.kept();
    let node = found.node(head);
    let mut l = m.head(node % STATES);
    // Stays a while loop: it goes along the machine's links.
    while l < NO_TRANSITION {
        if let Some(next) = target(m, input, node, l) {
            found.visit(next, head + 1, u32::from(l));
        }
        l = m.next_along(l);
    }
}

// The node to which transition l leads from `node`, whose state it leaves, or None where it leads nowhere: one that reads nothing stays at its
// position, any other needs its code there and goes on by one.
fn target(m: &Machine, input: &[u8], node: u32, l: u16) -> Option<u32>
    requires input_len_bound { length input.now ≤ most_word }
    requires node_lt_most_nodes { node < most_nodes }
    requires leaves { Leaves m.now l (state_of node) }
    ensures { NodeOf (Leads m.now input.now node l) result }
{
    m.kept();
    let to = u32::from(m.to(l));
    let read = m.key(l);
    let position = (node / STATES) as usize;
    if read == 0 {
        return Some(node / STATES * STATES + to);
    }
    if input.len() <= position {
        return None;
    }
    if u16::from(input[position]) != read {
        return None;
    }
    Some((node / STATES + 1) * STATES + to)
}

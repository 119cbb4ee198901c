// A row: for each position in the output word a cell, which has a set of states, those that are marked in it (specs/Rows.antt).
ghost use Rattle.std.specs.Prelude.{◌≡◌, true, ◌↔◌, ◌+◌, ◌≤◌, ◌<◌, List, ℕ, ltb, length, get_or};
ghost use Rattle.transducer.specs.Limits.{most_states};
ghost use Rattle.wordrows.specs.Limits.{most_output, row_places};
ghost use Rattle.wordrows.specs.Rows.{cell_at, place_of, Blank, Ends};
ghost use Rattle.wordrows.specs.Cells.{Added, Mark};

use crate::limits;
use closure::Closures;
use std::marker::Model;
use transducer::StateSet;

// The states of a cell.
const STATES: u16 = transducer::limits::STATES as u16;

// A cell has a place that says whether it has a mark, and one for each state. The places stay numbers, as those of `Closures`, whose flags they take over.
#[derive(Drop)]
pub struct Cells {
    places: [u8; limits::ROW],
}

impl Model for Cells {
    ghost Value = { List ℕ };

    ghost view = { λ c. c.places };

    ghost invariant = { λ c. length c.places ≡ row_places };
}

// That a position and a state are below their bounds stays a clause, here and in `Closures`: a place is computed from the two numbers, which loops count.
impl Cells {
    // A row with no mark.
    #[inline(always)]
    pub fn blank() -> Self
        ensures { Blank result }
    {
        Cells {
            places: [0; limits::ROW],
        }
    }

    // Whether the cell j has a mark.
    pub(crate) fn has_mark(&self, j: usize) -> bool
        requires { j ≤ most_output }
        ensures { result ≡ ltb 0 (get_or self.now (cell_at j) 0) }
    {
        self.places[j * limits::CELL] != 0
    }

    // Whether the state q is marked in the cell j.
    pub(crate) fn has(&self, j: usize, q: u16) -> bool
        requires j_le_most_output { j ≤ most_output }
        requires q_lt_most_states { q < most_states }
        ensures { result ≡ ltb 0 (get_or self.now (place_of j q) 0) }
    {
        self.places[j * limits::CELL + 1 + q as usize] != 0
    }

    // Whether one of the final states is marked in the cell j.
    pub fn ends(&self, finals: StateSet, j: usize) -> bool
        requires { j ≤ most_output }
        ensures { (result ≡ true) ↔ Ends finals self.now j }
    {
        for q in 0..STATES {
            if self.has(j, q) & finals.contains(q as u8) {
                return true;
            }
        }
        false
    }

    // Marks the state q in the cell j, with all states of its closure.
    pub(crate) fn mark(&mut self, closures: &Closures, j: usize, q: u16)
        requires j_le_most_output { j ≤ most_output }
        requires q_lt_most_states { q < most_states }
        ensures { Mark closures.now self.old j q self.new }
    {
        if self.has(j, q) {
            return;
        }
        let first = j * limits::CELL;
        self.places[first] = 1;
        self.add(first + 1, closures.row(q));
    }

    // Sets the flags from the place `to` on that are set among these, one for each state. They are set in a list of their own, which goes back as a whole.
    fn add(&mut self, to: usize, flags: &[u8])
        requires flags_len { length flags.now ≡ most_states }
        requires most_states_in_bounds { to + most_states ≤ row_places }
        ensures { Added to flags.now self.old self.new }
    {
        let places = &mut self.places[to..to + STATES as usize];
        let mut marks = [0; STATES as usize];
        marks.copy_from_slice(flags);
        for (i, place) in places.iter().enumerate() {
            marks[i] = marks[i].max(*place);
        }
        places.copy_from_slice(&marks);
    }
}

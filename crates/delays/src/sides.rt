// Two words, one of each side, in memory with room behind them. The contracts cite specs/WaysOut.antt.
ghost use Rattle.std.specs.Prelude.{◌≡◌, [], ◌≤◌, length};
ghost use Rattle.delays.specs.WaysOut.{most_way, word_in};
ghost use Rattle.witness.specs.Sides.{is_right};

use product::steps::PAIRS;
use std::marker::Model;
use transducer::limits;
use witness::Side;

// The size of the memory for one side of an equation: one side of a way out, what a step writes, and what is written past the end of either; with the
// places of one step to spare.
pub const WORD: usize = limits::OUTPUTS * (PAIRS + 2);

// Two words that are lent.
#[derive(Clone, Copy)]
pub struct Sides<'a> {
    pub left: &'a [u8],
    pub right: &'a [u8],
}

// Two words, each at the front of its list.
// Stays two lists with their lengths: there is no heap, and clauses see the two words.
#[derive(Drop)]
pub struct Words {
    pub(crate) left: [u8; WORD],
    pub(crate) right: [u8; WORD],
    pub(crate) left_len: usize,
    pub(crate) right_len: usize,
}

// Clauses see the two words.
impl Model for Words {
    ghost use Rattle.std.specs.Prelude.{◌≤◌, take};
    ghost use Rattle.delays.specs.WaysOut.{most_way, TwoWords};

    ghost Value = { TwoWords };

    ghost view = { λ w. record { left = take w.left_len w.left; right = take w.right_len w.right } };

    ghost invariant = { λ w. (w.left_len ≤ most_way) × (w.right_len ≤ most_way) };
}

impl Words {
    // Two empty words.
    pub fn new() -> Words
        ensures { result ≡ record { left = []; right = [] } }
    {
        Words {
            left: [0; WORD],
            right: [0; WORD],
            left_len: 0,
            right_len: 0,
        }
    }

    // Keeps the two words that are lent.
    pub fn hold(&mut self, sides: Sides)
        requires left { length sides.left.now ≤ most_way }
        requires right { length sides.right.now ≤ most_way }
        ensures { self.new ≡ record { left = sides.entry.left.now; right = sides.entry.right.now } }
    {
        let m = sides.left.len();
        let n = sides.right.len();
        self.left[..m].copy_from_slice(sides.left);
        self.right[..n].copy_from_slice(sides.right);
        self.left_len = m;
        self.right_len = n;
    }

    // The two words.
    pub fn sides(&self) -> Sides<'_>
        ensures left { result.left.now ≡ self.now.left }
        ensures right { result.right.now ≡ self.now.right }
    {
        Sides {
            left: &self.left[..self.left_len],
            right: &self.right[..self.right_len],
        }
    }
}

impl<'a> Sides<'a> {
    // The word of one side.
    pub(crate) fn of(self, side: Side) -> &'a [u8]
        ensures { result.now ≡ word_in (is_right side) (record { left = self.entry.left.now; right = self.entry.right.now }) }
    {
        match side {
            Side::Left => self.left,
            Side::Right => self.right,
        }
    }
}

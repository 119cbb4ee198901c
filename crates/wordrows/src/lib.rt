// The search over two words: which states do paths come to that read what stands before a position in the input word and write what stands before
// a position in the output word? For a position in the input word the sets of states, one for each position in the output word, are a row
// (specs/Rows.antt); `sweep` goes on with transitions that read nothing until the row is closed, and begins the next row with what transitions that read
// the next code lead to. Only two rows are alive, 8,448 bytes.
#![tactic(auto)]

ghost use Rattle.std.specs.Prelude.{◌≡◌, ◌≤◌, ◌<◌, length};
ghost use Rattle.product.specs.Machine.{count_of, from_of};
ghost use Rattle.wordrows.specs.Leads.{Ground, Lent};
ghost use Rattle.wordrows.specs.Rows.{Marked, Row, Blank, Started, Swept};
ghost use Rattle.wordrows.specs.Cells.{Ready, Put, Followed, Expanded, Filled};
ghost use Rattle.transducer.specs.Limits.{most_states};
ghost use Rattle.closure.specs.Closure.{ClosureOf};
ghost use Rattle.wordrows.specs.Limits.{most_output};

use closure::Closures;
use outputs::Outputs;
use product::machine::{Machine, NO_TRANSITION};
use std::marker::Model;
use transducer::StateSet;

mod cells;
pub mod limits;

pub use cells::Cells;

// The states of a cell.
const STATES: u16 = transducer::limits::STATES as u16;

// What the rows of an output word are made of: the machine of a transducer (`product::machine`), what its transitions write (`outputs`), for each state
// those that transitions which read and write nothing lead to (`closure`), which are marked with it at once, and the word.
#[derive(Drop)]
pub struct Rows<'a> {
    m: &'a Machine,
    written: &'a Outputs,
    closures: &'a Closures,
    output: &'a [u8],
}

impl<'a> Model for Rows<'a> {
    ghost Value = { Ground };

    ghost view = { λ r. record {
      m = r.m.now;
      written = r.written.now;
      closures = r.closures.now;
      output = r.output.now;
    } };

    ghost invariant = { λ r. Lent r.m.now r.written.now r.closures.now r.output.now };
}

impl<'a> Rows<'a> {
    // The rows of this output word.
    pub fn new(
        m: &'a Machine,
        written: &'a Outputs,
        closures: &'a Closures,
        output: &'a [u8],
    ) -> Self
        requires closed { ClosureOf m.now written.now closures.now }
        requires short { length output.now ≤ most_output }
        ensures { result ≡ record {
          m = m.now;
          written = written.now;
          closures = closures.now;
          output = output.now;
        } }
    {
        m.kept();
        Rows {
            m,
            written,
            closures,
            output,
        }
    }

    // The position at the end of the output word.
    pub fn end(&self) -> usize
        ensures end { result ≡ length self.now.output }
        ensures short { result ≤ most_output }
    {
        self.output.len()
    }

    // The row that begins with the start states, at the front of the output word.
    pub fn start(&self, starts: StateSet) -> Cells
        ensures { Started self.now.m self.now.written self.now.output starts result }
    {
        let mut row = Cells::blank();
        for q in 0..STATES {
            if starts.contains(q as u8) {
                row.mark(self.closures, 0, q);
            }
        }
        row
    }

    // Closes the row `here`, and begins the row `next` with what transitions that read `code` lead to from it.
    pub fn sweep(&self, code: u16, here: &mut Cells, next: &mut Cells)
        requires le_code { 1 ≤ code }
        requires row { Row self.now.m self.now.written self.now.output here.old }
        requires blank { Blank next.old }
        ensures { Swept self.now.m self.now.written self.now.output code
            here.old here.new next.new }
    {
        for j in 0..self.output.len() + 1 {
            if here.has_mark(j) {
                self.cell(code, j, here, next);
            }
        }
    }

    // Goes on from each state that is marked in the cell j. No state is marked in it on the way: what leads to one of the same cell writes nothing.
    // `Ready` stays a clause, here and below: it says how far the rows are at the cell j, in the midst of a sweep, and no row has that by itself.
    fn cell(&self, code: u16, j: usize, here: &mut Cells, next: &mut Cells)
        requires { Ready self.now.m self.now.written self.now.output
            self.now.closures code j here.old next.old }
        ensures { Filled self.now.m self.now.written self.now.output code j
            most_states here.old next.old here.new next.new }
    {
        for q in 0..STATES {
            if here.has(j, q) {
                self.expand(code, j, q, here, next);
            }
        }
    }

    // Goes on from the state q at the position j, along each transition that leaves it.
    fn expand(&self, code: u16, j: usize, q: u16, here: &mut Cells, next: &mut Cells)
        requires ready { Ready self.now.m self.now.written self.now.output
            self.now.closures code j here.old next.old }
        requires marked { Marked here.old j q }
        ensures { Expanded self.now.m self.now.written self.now.output code j q
            here.old next.old here.new next.new }
    {
        let mut l = self.m.head(u32::from(q));
        // Stays a while loop: it follows the chain in which a machine's transitions stand, which no range or slice has.
        while l < NO_TRANSITION {
            self.follow(code, j, l, here, next);
            l = self.m.next(l);
        }
    }

    // Goes on along transition l, if it reads nothing or `code`. Where one that reads and writes nothing leads is marked already.
    fn follow(&self, code: u16, j: usize, l: u16, here: &mut Cells, next: &mut Cells)
        requires ready { Ready self.now.m self.now.written self.now.output
            self.now.closures code j here.old next.old }
        requires l_bound { l < count_of self.now.m }
        requires marked { Marked here.old j (from_of self.now.m l) }
        ensures { Followed self.now.m self.now.written self.now.output code j l
            here.old next.old here.new next.new }
    {
        let read = self.m.key(l);
        if read == code {
            self.put(j, l, next);
            return;
        }
        if read != 0 {
            return;
        }
        if self.written.count(u32::from(l)) != 0 {
            self.put(j, l, here);
        }
    }

    // Marks in the row where transition l leads from the position j, if what it writes stands there.
    #[inline(always)]
    fn put(&self, j: usize, l: u16, row: &mut Cells)
        requires j_in_bounds { j ≤ length self.now.output }
        requires l_bound { l < count_of self.now.m }
        ensures { Put self.now.m self.now.written self.now.output
            self.now.closures j l row.old row.new }
    {
        if self.written.stands(u32::from(l), self.output, j) {
            let count = self.written.count(u32::from(l));
            row.mark(self.closures, j + count as usize, self.m.to(l));
        }
    }
}

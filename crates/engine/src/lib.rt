// What a unit runs. `Demand3` of specs/Demand3.antt is demand 3, whole, as one statement about every file that the reader takes, every transducer that is
// accepted, and all that meets the contracts below or those of the functionality test and the translator; `demand_3` of proofs/Demand3.antt proves it. The
// contracts cite specs/Engine.antt.
#![tactic(auto)]

ghost use Rattle.std.specs.Prelude.{◌≡◌};
ghost use Rattle.tablereader.specs.Reader.{read_of};
ghost use Rattle.witness.specs.Showing.{contents_of, SameMemory};
ghost use Rattle.engine.specs.Engine.{Judged, FileTranslated};

use functionality::Verdict;
use tablereader::FileRefusal;
use transducer::Transducer;
use witness::Lent;

// Reads a table file and tests whether its transducer is functional (document 01: the verdict). A witness that it is not is put into the five
// buffers; any other answer leaves them as they were. A refusal has the record number of the file's, or 0 where the test refuses.
pub fn judge(text: &[u8], lent: &mut Lent) -> Result<Verdict, FileRefusal>
    ensures same_memory { SameMemory lent.old lent.new }
    ensures judged { Judged text.now (contents_of lent.old) (contents_of lent.new) result }
{
    let table = table_of(text)?;
    Ok(functionality::decide(table, lent)?)
}

// The table of a file. A function of its own: what the reading uses is no longer in memory where the verdict is made. Where a word is translated it stays
// inlined: there nothing is deeper than the reading.
#[inline(never)]
fn table_of(text: &[u8]) -> Result<Transducer, FileRefusal>
    ensures { result ≡ read_of text.now }
{
    tablereader::read(text)
}

// Reads a table file and writes the output of the word `input` by its table to the front of `out`, and returns its length; or refuses, and writes
// nothing.
pub fn translate_file(text: &[u8], input: &[u8], out: &mut [u8]) -> Result<usize, FileRefusal>
    ensures { FileTranslated text.now input.now out.old out.new result }
{
    Ok(translator::translate(tablereader::read(text)?, input, out)?)
}

// The translator: it writes the output of an accepting path that reads a given input word (document 01, "The translator"). Its contract is
// specs/Translated.antt. The path comes from the search of `wordsearch`, last transition first, so that the output is measured on one way back
// along the search's parents and written, from its end to its beginning, on another.
#![tactic(auto)]

ghost use Rattle.std.specs.Prelude.{◌≡◌, ◌≤◌, length};
ghost use Rattle.buffers.specs.Put.{put};
ghost use Rattle.transducer.specs.Transition.{bytes_of};
ghost use Rattle.transducer.specs.Valid.{Valid};
ghost use Rattle.wordsearch.specs.Nodes.{Room};
ghost use Rattle.wordsearch.specs.Answers.{written, Traced};
ghost use Rattle.translator.specs.Parts.{Answers};
ghost use Rattle.translator.specs.Translated.{Translated};

use transducer::refusals::Refusal;
use transducer::{Transducer, codes};
use wordsearch::limits::{NODES, WORD};
use wordsearch::way::WayBack;
use worklist::Search;

// A word of fewer codes is searched for in shorter lists, so that less has to be cleared.
const SHORT: usize = 32;

// The nodes of such a word.
const SHORT_NODES: usize = SHORT * transducer::limits::STATES;

// Writes the output of an accepting path that reads the word `input` to the front of `out`, and returns its length; or refuses, and writes nothing.
pub fn translate(t: Transducer, input: &[u8], out: &mut [u8]) -> Result<usize, Refusal>
    ensures { Translated t input.now out.old out.new result }
{
    if !useful::accepted(t) {
        return Err(Refusal::Invalid);
    }
    if WORD < input.len() {
        return Err(Refusal::WordTooLong);
    }
    if !codes::all(input) {
        return Err(Refusal::NoInputCode);
    }
    if input.len() < SHORT {
        return answer::<SHORT_NODES>(t, input, out);
    }
    answer::<NODES>(t, input, out)
}

// The answer for a word that is not refused and has at most N nodes: the path is searched for, and its output measured and written.
fn answer<const N: usize>(t: Transducer, input: &[u8], out: &mut [u8]) -> Result<usize, Refusal>
    requires valid { Valid t }
    requires room { Room (length input.now) N }
    ensures { Answers t input.now out.old out.new result }
{
    let mut search = Search::<N>::new();
    let found = wordsearch::find(t, input, &mut search);
    let place = found.ok_or(Refusal::Unread)?;
    let size = measure(t, WayBack::new(&search, place));
    if out.len() < size {
        return Err(Refusal::TooShort);
    }
    write(t, WayBack::new(&search, place), out, size);
    Ok(size)
}

// The length of what the path writes along which the way leads back.
fn measure<const N: usize>(t: Transducer, way: WayBack<'_, N>) -> usize
    requires valid { Valid t }
    requires traced { Traced t way }
    ensures { result ≡ length (written t way.entry) }
{
    let mut total = 0;
    for l in way {
        total += t.transitions[l as usize].count as usize;
    }
    total
}

// Writes what that path writes, `size` codes, to the front of `out`: the last transition's codes first, which end at `size`.
fn write<const N: usize>(t: Transducer, way: WayBack<'_, N>, out: &mut [u8], size: usize)
    requires valid { Valid t }
    requires traced { Traced t way }
    requires size_value { size ≡ length (written t way) }
    requires size_in_bounds { size ≤ length out.old }
    ensures { out.new ≡ put out.old 0 (bytes_of (written t way.entry)) }
{
    let mut to = size;
    for l in way {
        let v = t.transitions[l as usize];
        to -= v.count as usize;
        pathwords::put_output(v, out, to);
    }
}

// Two transducers in series (document 02, job 3): what the first writes the second reads. The contract of `join` cites `JoinedOf` of
// specs/Join.antt; that the result's relation is the composition of the two is `InSeries` of specs/Composition.antt.
#![tactic(auto)]

ghost use Rattle.std.specs.Prelude.{◌≡◌, true, false, leb, length};
ghost use Rattle.std.specs.List.{list_all};
ghost use Rattle.transducer.specs.Valid.{Valid};
ghost use Rattle.product.specs.Machine.{ImageOf};
ghost use Rattle.joints.specs.Joint.{one_code_of};
ghost use Rattle.joints.specs.Found.{among};
ghost use Rattle.series.specs.Join.{JoinedOf};
ghost use Rattle.series.specs.Parts.{MadeOf};

use product::machine::Machine;
use product::steps::{PAIRS, Product};
use transducer::refusals::Refusal;
use transducer::{Transducer, Transition, limits};

mod listing;
mod table;

// The two transducers in series, or the refusal 8, 15, 16 or 17, in this order.
pub fn join(first: Transducer, second: Transducer) -> Result<Transducer, Refusal>
    ensures { JoinedOf first second result }
{
    if !useful::accepted(first) {
        return Err(Refusal::Invalid);
    }
    if !useful::accepted(second) {
        return Err(Refusal::Invalid);
    }
    if !one_code(first) {
        return Err(Refusal::MoreThanOneCode);
    }
    let left = Machine::by_output(first);
    let right = Machine::by_input(second);
    let product = Product::new(&left, &right);
    let mut pairs = [0u32; PAIRS];
    joints::joined_pairs(&first, &second, &product, &mut pairs);
    make(&Series {
        first: &first,
        second: &second,
        product,
        pairs: &pairs,
    })
}

// Whether every transition of t writes at most one code.
fn one_code(t: Transducer) -> bool
    requires { Valid t }
    ensures { result ≡ one_code_of t }
{
    all_short(&t.transitions[..t.count as usize])
}

// The same of transitions in a row.
fn all_short(lines: &[Transition]) -> bool
    ensures { result ≡ list_all (λ x. leb x.count 1) lines.now }
{
    lines.iter().all(|x| x.count <= 1)
}

// Two transducers that can be joined: themselves, the product of their machines, the first's by what it writes and the second's by what it reads, and
// their joined pairs, a number that is not 0 for each.
// They stay numbers: the ranks of a search, as they are.
#[derive(Clone, Copy)]
struct Series<'a> {
    first: &'a Transducer,
    second: &'a Transducer,
    product: Product<'a>,
    pairs: &'a [u32; PAIRS],
}

// What is made of them.
#[inline(never)]
fn make(series: &Series) -> Result<Transducer, Refusal>
    requires valid { Valid series.now.first.now }
    requires valid_2 { Valid series.now.second.now }
    requires first_value { one_code_of series.now.first.now ≡ true }
    requires image_of { ImageOf series.now.first.now true series.now.product.left.now }
    requires image_of_2 { ImageOf series.now.second.now false series.now.product.right.now }
    ensures { MadeOf series.now.first.now series.now.second.now (among series.now.pairs.now) result }
{
    let numbering = table::number(series.pairs);
    if (limits::STATES as u32) < numbering.count {
        return Err(Refusal::ManyPairs);
    }
    let steps = listing::list(series)?;
    let list = steps.numbers();
    if numbering.count == 0 {
        return Ok(transducer::blank());
    }
    Ok(table::table(series, &numbering, list))
}

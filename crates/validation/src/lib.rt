// Module 6: shape and validation of decision trees, whose nodes are lent as words.
#![tactic(auto)]

ghost use Rattle.std.specs.Prelude.{◌≡◌, ◌≤◌, pos, length};
ghost use Rattle.integer.specs.Fill.{filled};
ghost use Rattle.refusal.specs.Paper.{said};
ghost use Rattle.validation.specs.Shape.{shape};
ghost use Rattle.validation.specs.Validation.{validation, area_after};
ghost use Rattle.validation.specs.Verdict.{SoundList};
ghost use Rattle.validation.specs.Visit.{visit, levels, all_ranges, widest};

mod shape;
mod visit;

use nodes::count_nodes;
use refusal::Refusal;
use shape::check_nodes;
use visit::visit_all;

// Whether the list has the order that `Tree::read` writes.
pub fn check_shape(words: &[i32]) -> Result<(), Refusal>
    ensures { said result ≡ shape words.now }
{
    let n = count_nodes(words)?;
    check_nodes(words, n)
}

// The ends of a range that holds every value: the lowest in even words, the highest in odd ones.
fn widest_end(i: usize) -> i32
    ensures { result ≡ widest i }
{
    if i % 2 == 0 { i32::MIN } else { i32::MAX }
}

fn open_ranges(work: &mut [i32])
    requires { 10762 ≤ length work.old }
    ensures { work.new ≡ filled widest 512 work.old }
{
    for i in 0..512 {
        work[i] = widest_end(i);
    }
}

// The work area is clear afterwards, whatever the visit found.
fn visit_and_clear(words: &[i32], work: &mut [i32]) -> Result<(), Refusal>
    requires { SoundList words.now × (10762 ≤ length work.old) }
    ensures result_value { said result ≡ visit words.now levels 0 all_ranges }
    ensures work_after { work.new ≡ filled (λ i. pos 0) 10762 work.old }
{
    open_ranges(work);
    let found = visit_all(words, work);
    work[..10762].fill(0);
    found
}

// Whether the tree is trusted by every walk: of sound shape, no leaf too deep, and each reached by some cells.
pub fn validate_tree(words: &[i32], work: &mut [i32]) -> Result<(), Refusal>
    ensures answers { said result ≡ validation words.now (length work.old) }
    ensures leaves { work.new ≡ area_after words.now work.old }
{
    check_shape(words)?;
    if words.is_empty() {
        return Ok(());
    }
    if work.len() < 10762 {
        return Err(Refusal::TooSmall { needed: 10762 });
    }
    visit_and_clear(words, work)
}

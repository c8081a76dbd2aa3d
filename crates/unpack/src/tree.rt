// The tree as a user of the library makes it ready: validated, its mask, flattened.
ghost use Rattle.std.specs.Prelude.{◌≡◌, ◌*◌, ◌≤◌, IfOk, length};
ghost use Rattle.flatten.specs.Flatten.{flattening};
ghost use Rattle.refusal.specs.Paper.{said};
ghost use Rattle.validation.specs.Validation.{validation};
ghost use Rattle.unpack.specs.Tree.{flat_of};

use flatten::build_flat_tree;
use nodes::mask::compute_used_property_mask;
use refusal::Refusal;
use validation::validate_tree;

// The mask of its properties, and how many words its records are.
#[derive(Clone, Copy, Debug, PartialEq, Eq)]
pub struct Flat {
    pub mask: u32,
    pub words: usize,
}

fn validate(nodes: &[i32]) -> Result<(), Refusal>
    ensures { said result ≡ validation nodes.now 10762 }
{
    let mut work = [0i32; 10762];
    validate_tree(nodes, &mut work)
}

fn records_of(nodes: &[i32], records: &mut [i32]) -> Result<usize, Refusal>
    ensures answers { said result ≡ flattening nodes.now 8192 (length records.old) }
    ensures within { IfOk result (λ count. 6 * count ≤ length records.old) }
{
    let mut ring = [0i32; 8192];
    build_flat_tree(nodes, &mut ring, records)
}

pub fn flatten(nodes: &[i32], records: &mut [i32]) -> Result<Flat, Refusal>
    ensures answers { said result ≡ flat_of nodes.now (length records.old) }
    ensures within { IfOk result (λ flat. flat.words ≤ length records.old) }
{
    validate(nodes)?;
    let mask = compute_used_property_mask(nodes)?;
    let count = records_of(nodes, records)?;
    Ok(Flat {
        mask,
        words: 6 * count,
    })
}

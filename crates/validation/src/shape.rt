// Shape: the order that `Tree::read` writes, place after place.
ghost use Rattle.std.specs.Prelude.{◌≡◌, ◌≤◌, ◌<◌, ◌*◌, length};
ghost use Rattle.nodes.specs.Nodes.{node_at};
ghost use Rattle.refusal.specs.Paper.{said};
ghost use Rattle.validation.specs.Shape.{shape_of, placed_leaf, placed_split, splits_with};

use nodes::{Node, Split, read_node};
use refusal::Refusal;

// A node of a list that is not too long: it is a child of a split before it, or the root. Each answer here is the splits up to the
// node, it included.
fn place_leaf(place: usize, splits: usize) -> Result<usize, Refusal>
    requires { (place < 1048576) × (splits ≤ place) }
    ensures { said result ≡ placed_leaf place splits }
{
    if 2 * splits < place {
        return Err(Refusal::OutOfPlace {
            place: place as u32,
        });
    }
    Ok(splits)
}

// A split also has the next two places for its children.
fn place_split(split: Split, place: usize, splits: usize) -> Result<usize, Refusal>
    requires { (place < 1048576) × (splits ≤ place) }
    ensures { said result ≡ placed_split «split» place splits }
{
    let left = split.left as usize;
    let right = split.right as usize;
    if 2 * splits < place || left != 2 * splits + 1 || right != 2 * splits + 2 {
        return Err(Refusal::OutOfPlace {
            place: place as u32,
        });
    }
    Ok(splits + 1)
}

fn place_node(words: &[i32], place: usize, splits: usize) -> Result<usize, Refusal>
    requires { (place < 1048576) × (5 * place ≤ length words.now) × (splits ≤ place) }
    ensures { said result ≡ splits_with (node_at words.now place) place splits }
{
    match read_node(&words[5 * place..], place as u32)? {
        Node::Leaf(_) => place_leaf(place, splits),
        Node::Split(split) => place_split(split, place, splits),
    }
}

// Place after place: the lowest fault counts; then the children of all splits must be there.
pub fn check_nodes(words: &[i32], n: usize) -> Result<(), Refusal>
    requires { (n < 1048576) × (length words.now ≡ 5 * n) }
    ensures { said result ≡ shape_of words.now n }
{
    if n == 0 {
        return Ok(());
    }
    let mut splits = 0;
    for place in 0..n {
        splits = place_node(words, place, splits)?;
    }
    if n < 2 * splits + 1 {
        return Err(Refusal::OutOfPlace { place: n as u32 });
    }
    Ok(())
}

// Chains of splits, each the right child of the one before: 2,048 of them pass. From 2,049 on a node lies at depth 2,049 (6),
// which is tested before its range.
ghost use Rattle.std.specs.Prelude.{◌+◌, ◌*◌, ◌≤◌, ◌<◌, length};

use crate::visit;

// The node at a place, which ends in 0.
fn put(words: &mut [i32], place: usize, node: [i32; 4])
    requires { 5 * place + 5 ≤ length words.old }
{
    let at = 5 * place;
    words[at..at + 4].copy_from_slice(&node);
    words[at + 4] = 0;
}

fn leaf(words: &mut [i32], place: usize)
    requires { 5 * place + 5 ≤ length words.old }
{
    put(words, place, [-1, 0, 0, 1]);
}

// A split at an even place, all splits before it at even places too, and the leaf that is its left child.
fn split(words: &mut [i32], place: usize, value: i32)
    requires { (place ≤ 5000) × (5 * place + 10 ≤ length words.old) }
{
    put(
        words,
        place,
        [0, value, (place + 1) as i32, (place + 2) as i32],
    );
    leaf(words, place + 1);
}

// Each split at a value one below that of the split before.
fn chain(words: &mut [i32], splits: usize)
    requires { (splits ≤ 2049) × (10 * splits + 5 ≤ length words.old) }
{
    for k in 0..splits {
        split(words, 2 * k, (5000 - k) as i32);
    }
    leaf(words, 2 * splits);
}

fn validate(rt: &impl Print, words: &mut [i32], splits: usize)
    requires { (splits ≤ 2049) × (10 * splits + 5 ≤ length words.old) }
{
    chain(words, splits);
    let _ = print!(rt; "validate_tree of a chain of {splits}");
    visit::validate(rt, &words[..10 * splits + 5]);
}

// The left child of the last split is a split too, at a value that leaves it an empty side.
fn ends(rt: &impl Print, words: &mut [i32], splits: usize)
    requires { (1 ≤ splits) × (splits ≤ 2049) × (10 * splits + 15 ≤ length words.old) }
{
    chain(words, splits);
    let next = 2 * splits + 1;
    put(
        words,
        2 * splits - 1,
        [0, i32::MAX, next as i32, (next + 1) as i32],
    );
    leaf(words, next);
    leaf(words, next + 1);
    let _ = print!(rt; "validate_tree of a chain of {splits} and an empty side below");
    visit::validate(rt, &words[..10 * splits + 15]);
}

pub fn run(rt: &impl Print) {
    let mut words = [0i32; 20505];
    validate(rt, &mut words, 1);
    validate(rt, &mut words, 2048);
    validate(rt, &mut words, 2049);
    ends(rt, &mut words, 2048);
    ends(rt, &mut words, 2049);
}

// The mask: a bit for each property below 32, all for others, 8 and 9 together; refused 1 and 3, whatever the children are.
use nodes::mask::compute_used_property_mask;

fn tell(rt: &impl Print, words: &[i32]) {
    match compute_used_property_mask(words) {
        Ok(mask) => {
            let _ = println!(rt; ": {mask}");
        }
        Err(refusal) => print::refused(refusal),
    }
}

fn mask(rt: &impl Print, name: &str, words: &[i32]) {
    let _ = print!(rt; "mask {name}");
    tell(rt, words);
}

// A split and two leaves.
fn property(rt: &impl Print, property: i32) {
    let _ = print!(rt; "mask property={property}");
    tell(rt, &[property, 0, 1, 2, 0, -1, 0, 0, 1, 0, -1, 0, 0, 1, 0]);
}

fn properties(rt: &impl Print) {
    for number in [0, 7, 8, 9, 10, 31, 32, 40, 255, 256, -2] {
        property(rt, number);
    }
}

fn lists(rt: &impl Print) {
    let leaf = [-1, 13, 0, 1, 0];
    mask(rt, "of no nodes", &leaf[..0]);
    mask(rt, "of a leaf", &leaf);
    mask(rt, "of four words", &leaf[..4]);
    mask(
        rt,
        "of children out of place",
        &[3, 0, 7, 7, 0, 16, 0, 0, 0, 0],
    );
}

// The lowest place counts.
fn forms(rt: &impl Print) {
    mask(rt, "of a predictor 14", &[-1, 14, 0, 1, 0]);
    mask(rt, "of a predictor -1", &[-1, -1, 0, 1, 0]);
    mask(rt, "of a split that ends in 1", &[0, 0, 1, 2, 1]);
    mask(
        rt,
        "of two nodes out of form after a leaf",
        &[-1, 0, 0, 1, 0, 256, 0, 0, 0, 0, -2, 0, 0, 0, 0],
    );
}

pub fn run(rt: &impl Print) {
    properties(rt);
    lists(rt);
    forms(rt);
}

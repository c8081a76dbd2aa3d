// How many records of each kind were equal, and how many in all. The counts wrap, past any input.
#[derive(Clone, Copy)]
pub struct Tally {
    pub all: u64,
    pub equal: [u64; 14],
}

impl Tally {
    pub fn none() -> Self {
        Tally {
            all: 0,
            equal: [0; 14],
        }
    }

    // One record more of this kind, of 1 to 14.
    pub fn count(&mut self, kind: u32) {
        self.all = self.all.wrapping_add(1);
        if 1 <= kind && kind <= 14 {
            let k = kind as usize - 1;
            self.equal[k] = self.equal[k].wrapping_add(1);
        }
    }

    // That standard output cannot be written is told nowhere.
    pub fn print(&self, rt: &impl Print) {
        let names = [
            "floor_log2_nonzero",
            "error_weight",
            "get_rows",
            "update_for_interior_row",
            "predict_one",
            "do_rct_step",
            "predict_and_property",
            "update_errors",
            "compute_used_property_mask",
            "validate_tree",
            "compute_properties",
            "predict",
            "build_flat_tree",
            "predict_flat",
        ];
        for k in 0..14 {
            let name = names[k];
            let equal = self.equal[k];
            let _ = println!(rt; "{name}: {equal} equal");
        }
    }
}

// Saving and restoring: only where an ask that opens an even row is due (13), and with room (8, the memory before the list).
use crate::pixels;
use refusal::Refusal;
use weighted::state::WeightedState;

fn told(rt: &impl Print, copied: Result<(), Refusal>) {
    match copied {
        Ok(()) => {
            let _ = print!(rt; ": done");
        }
        Err(refusal) => print::refusal(refusal),
    }
}

fn list(rt: &impl Print, saved: &[u32]) {
    let _ = print!(rt; ";");
    print::naturals(saved);
    let _ = println!(rt);
}

// Two rows of width 1 put, then saved and restored into another memory.
fn kept(rt: &impl Print) {
    let mut memory = [0u32; 30];
    let mut saved = [7u32; 16];
    let mut state = pixels::at(1, 0, 0, false);
    pixels::ask(rt, &mut state, &memory, pixels::same(0));
    pixels::put(rt, &mut state, &mut memory, 10);
    pixels::ask(rt, &mut state, &memory, pixels::same(10));
    pixels::put(rt, &mut state, &mut memory, 30);
    let _ = print!(rt; "save_state y=2");
    told(rt, state.save_state(&memory, &mut saved));
    list(rt, &saved);
    let mut other = [5u32; 30];
    let _ = print!(rt; "restore_state y=2");
    told(rt, state.restore_state(&mut other, &saved));
    list(rt, &other);
}

fn save(rt: &impl Print, name: &str, state: WeightedState) {
    let memory = [1u32; 40];
    let mut saved = [7u32; 20];
    let _ = print!(rt; "save_state {name}");
    told(rt, state.save_state(&memory, &mut saved));
    list(rt, &saved);
}

fn restore(rt: &impl Print, name: &str, state: WeightedState) {
    let mut memory = [1u32; 40];
    let saved = [7u32; 20];
    let _ = print!(rt; "restore_state {name}");
    told(rt, state.restore_state(&mut memory, &saved));
    list(rt, &memory);
}

// Width 2: the memory has 40 words, the list 20.
fn turns(rt: &impl Print) {
    save(rt, "at the start", pixels::at(2, 0, 0, false));
    save(rt, "at an odd row", pixels::at(2, 0, 1, false));
    save(rt, "in a row", pixels::at(2, 1, 0, false));
    save(rt, "after an ask", pixels::at(2, 0, 0, true));
    save(rt, "at row 2^30", pixels::at(2, 0, 1073741824, false));
    save(rt, "past the row", pixels::at(2, 2, 0, false));
}

fn turns_back(rt: &impl Print) {
    restore(rt, "at the start", pixels::at(2, 0, 0, false));
    restore(rt, "at an odd row", pixels::at(2, 0, 1, false));
    restore(rt, "after an ask", pixels::at(2, 0, 0, true));
}

fn room(rt: &impl Print) {
    save(
        rt,
        "of a width that needs 50 words",
        pixels::at(3, 0, 0, false),
    );
    let memory = [1u32; 40];
    let mut saved = [7u32; 19];
    let _ = print!(rt; "save_state into 19 words");
    told(
        rt,
        pixels::at(2, 0, 0, false).save_state(&memory, &mut saved),
    );
    list(rt, &saved);
}

pub fn run(rt: &impl Print) {
    kept(rt);
    turns(rt);
    turns_back(rt);
    room(rt);
}

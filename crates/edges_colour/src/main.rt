// The edge cases of module 9, both sides of each refusal and the ends of each range, a line for each. What a line says before
// its colon is the call, after it the answer: that the step was done or the row is there, or a refusal's number and detail;
// then the words of the planes or of the row.
#![tactic(auto)]

mod planes;

// That standard output cannot be written is told nowhere; the comparison with `stdout` finds it.
fn main(rt: HostRuntime) {
    planes::run(&rt);
}

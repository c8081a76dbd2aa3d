// The edge cases of 32-bit words and of module 1, both sides of each refusal and the ends of each range, a line for each.
// What a line says before its colon is the call, after it the answer: a number, or a refusal's number and detail. The
// programs `edges_predict` and `edges_colour` do the same for the other modules.
#![tactic(auto)]

mod weights;
mod words;

// That standard output cannot be written is told nowhere; the comparison with `stdout` finds it.
fn main(rt: HostRuntime) {
    words::run(&rt);
    weights::run(&rt);
}

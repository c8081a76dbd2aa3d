// The edge cases of module 4, both sides of each refusal and the ends of each range, a line for each. What a line says before
// its colon is the call, after it the answer: guess and property, that it was done, or a refusal's number and detail; then,
// where the call writes, the memory's words, five a position.
#![tactic(auto)]

mod memory;
mod opening;
mod pixels;
mod saving;

// That standard output cannot be written is told nowhere; the comparison with `stdout` finds it.
fn main(rt: HostRuntime) {
    opening::run(&rt);
    pixels::run(&rt);
    memory::run(&rt);
    saving::run(&rt);
}

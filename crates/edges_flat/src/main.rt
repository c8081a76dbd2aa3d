// The edge cases of modules 7 and 8, both sides of each refusal and the ends of each range, a line for each. What a line says
// before its colon is the call, after it the answer: so many records, a walk's guess, multiplier, context and hops, or a
// refusal's number and detail; then, for flattening, the ring and the output.
#![tactic(auto)]

mod direct;
mod flattening;
mod records;
mod trees;

// That standard output cannot be written is told nowhere; the comparison with `stdout` finds it.
fn main(rt: HostRuntime) {
    flattening::run(&rt);
    direct::run(&rt);
    records::run(&rt);
}

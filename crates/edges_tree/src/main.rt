// The edge cases of modules 5 and 6, both sides of each refusal and the ends of each range, a line for each. What a line says
// before its colon is the call, after it the answer: a mask, that it was accepted or done, or a refusal's number and details;
// then, where the call writes, the words that were lent.
#![tactic(auto)]

mod chains;
mod fill;
mod masks;
mod shape;
mod visit;

// That standard output cannot be written is told nowhere; the comparison with `stdout` finds it.
fn main(rt: HostRuntime) {
    masks::run(&rt);
    shape::run(&rt);
    visit::run(&rt);
    chains::run(&rt);
    fill::run(&rt);
}

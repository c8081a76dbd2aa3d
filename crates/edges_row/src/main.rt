// The edge cases of a row in one call, both sides of each refusal, a line for each. What a line says before its colon is the session's
// place and how many words are lent; after it the answer: done, or a refusal's number and detail and how many pixels were put; then the
// plane, the contexts and the cells. Over 2,097,149 records (2) are more than a program can hold.
#![tactic(auto)]

mod calls;
mod refusing;
mod unpacking;

// That standard output cannot be written is told nowhere; the comparison with `stdout` finds it.
fn main(rt: HostRuntime) {
    unpacking::run(&rt);
    refusing::run(&rt);
}

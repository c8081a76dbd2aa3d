// The edge cases of module 10, both sides of each refusal, a line for each. What a line says before its colon is the call, with the
// session's place and the words lent; after it the answer: that it was opened or done, a context, or a refusal's number and detail; then,
// where words were or could have been written, the cells, the plane or the memory. A session that a refused walk closed says so.
// Over 2,097,149 records (2) are more than a program can hold; `flat` and its comparison with the Rust have that side.
#![tactic(auto)]

mod asking;
mod calls;
mod channels;
mod closing;
mod opening;
mod putting;

// That standard output cannot be written is told nowhere; the comparison with `stdout` finds it.
fn main(rt: HostRuntime) {
    opening::run(&rt);
    asking::run(&rt);
    putting::run(&rt);
    closing::run(&rt);
    channels::run(&rt);
}

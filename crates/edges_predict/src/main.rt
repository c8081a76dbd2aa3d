// The edge cases of modules 2 and 3, both sides of each refusal and the ends of each range, a line for each. What a line says
// before its colon is the call, after it the answer: a number, a predictor, the seven neighbours, or a refusal's number and
// detail.
#![tactic(auto)]

mod neighbours;
mod predictors;

// That standard output cannot be written is told nowhere; the comparison with `stdout` finds it.
fn main(rt: HostRuntime) {
    neighbours::run(&rt);
    predictors::run(&rt);
}

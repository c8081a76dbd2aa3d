// Trees, put into a list node by node, and what a walk answered.
use predict::neighbours::PredictionData;
use refusal::Refusal;
use walk::PredictionResult;

// 15 nodes: the splits at properties 0 to 6, value 0, and all leaves at depth 3, each of predictor Zero, its offset as its id.
pub fn full() -> [i32; 75] {
    let mut words = [0; 75];
    for place in 0..7 {
        let property = place as i32;
        let left = 2 * property + 1;
        words[5 * place..5 * place + 5].copy_from_slice(&[property, 0, left, left + 1, 0]);
    }
    for place in 7..15 {
        let id = place as i32;
        words[5 * place..5 * place + 5].copy_from_slice(&[-1, 0, id, 1, id]);
    }
    words
}

// left 11, top 22, topleft 7
pub fn some() -> PredictionData {
    PredictionData {
        left: 11,
        top: 22,
        toptop: 44,
        topleft: 7,
        topright: 100,
        leftleft: 1000,
        toprightright: 9,
    }
}

fn result(rt: &impl Print, res: PredictionResult) {
    let _ = print!(rt;
        ": {} multiplier={} context={} hops={}",
        res.guess, res.multiplier, res.context, res.hops
    );
}

pub fn told(rt: &impl Print, walked: Result<PredictionResult, Refusal>) {
    match walked {
        Ok(given) => result(rt, given),
        Err(refusal) => print::refusal(refusal),
    }
    let _ = println!(rt);
}

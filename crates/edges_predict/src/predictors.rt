// Module 3: each predictor on one neighbourhood, then the sides of each choice, the rounding of the quotients and the ends
// of the range.
use predict::neighbours::PredictionData;
use predict::predictors::Predictor;

fn numbers(rt: &impl Print) {
    for value in [0, 13, 14, 4294967295] {
        match Predictor::try_from(value) {
            Ok(predictor) => {
                let _ = println!(rt; "try_from {value}: {predictor:?}");
            }
            Err(_) => {
                let _ = println!(rt; "try_from {value}: no such predictor");
            }
        }
    }
}

fn guess(rt: &impl Print, predictor: Predictor, data: PredictionData, weighted: i64) {
    let _ = print!(rt; "predict_one {predictor:?} of");
    print::seven(data);
    let _ = println!(rt;
        " weighted={weighted}: {}",
        predictor.predict_one(data, weighted)
    );
}

fn distinct() -> PredictionData {
    PredictionData {
        left: 10,
        top: 23,
        toptop: 7,
        topleft: 14,
        topright: 41,
        leftleft: -18,
        toprightright: 59,
    }
}

fn all_fourteen(rt: &impl Print) {
    for predictor in [
        Predictor::Zero,
        Predictor::West,
        Predictor::North,
        Predictor::AverageWestAndNorth,
        Predictor::Select,
        Predictor::Gradient,
        Predictor::Weighted,
        Predictor::NorthEast,
        Predictor::NorthWest,
        Predictor::WestWest,
        Predictor::AverageWestAndNorthWest,
        Predictor::AverageNorthAndNorthWest,
        Predictor::AverageNorthAndNorthEast,
        Predictor::AverageAll,
    ] {
        guess(rt, predictor, distinct(), 1000);
    }
}

// A neighbourhood whose other four are 0.
fn corner(left: i32, top: i32, topleft: i32) -> PredictionData {
    PredictionData {
        left,
        top,
        toptop: 0,
        topleft,
        topright: 0,
        leftleft: 0,
        toprightright: 0,
    }
}

fn all(value: i32) -> PredictionData {
    PredictionData {
        left: value,
        top: value,
        toptop: value,
        topleft: value,
        topright: value,
        leftleft: value,
        toprightright: value,
    }
}

// A tie gives top; left only where top is the nearer to topleft. In 32 bits the distances of the last three would wrap.
fn selects(rt: &impl Print) {
    for (left, top, topleft) in [
        (3, 7, 5),
        (3, 6, 5),
        (4, 7, 5),
        (-2147483648, 2147483647, -2147483648),
        (2147483647, -2147483646, -2147483648),
        (-2147483646, 2147483647, -2147483648),
    ] {
        guess(rt, Predictor::Select, corner(left, top, topleft), 0);
    }
}

fn gradient(rt: &impl Print, left: i32, top: i32, topleft: i32) {
    guess(rt, Predictor::Gradient, corner(left, top, topleft), 0);
}

// topleft below both, at the lower, between, at the higher, above both
fn gradients(rt: &impl Print) {
    for topleft in [5, 9, 10, 14, 20, 21, 25] {
        gradient(rt, 10, 20, topleft);
    }
}

fn gradient_ends(rt: &impl Print) {
    for (left, top, topleft) in [
        (2147483647, 2147483647, -2147483648),
        (-2147483648, -2147483648, 2147483647),
        (2147483647, -2147483648, 0),
        (2147483647, -2147483648, -2147483648),
        (-2147483648, 2147483647, 2147483647),
        (2147483647, 2147483647, 2147483647),
        (-2147483648, -2147483648, -2147483648),
    ] {
        gradient(rt, left, top, topleft);
    }
}

fn average(rt: &impl Print, left: i32, top: i32) {
    guess(rt, Predictor::AverageWestAndNorth, corner(left, top, 0), 0);
}

// Quotients go toward zero, also those of negative odd sums.
fn averages(rt: &impl Print) {
    for (left, top) in [(-3, 0), (0, -3), (3, 0), (-1, 0)] {
        average(rt, left, top);
    }
    for (predictor, data) in [
        (Predictor::AverageWestAndNorthWest, corner(-4, 0, -1)),
        (Predictor::AverageNorthAndNorthWest, corner(0, -7, 2)),
        (Predictor::AverageNorthAndNorthEast, corner(0, -9, 0)),
    ] {
        guess(rt, predictor, data, 0);
    }
}

fn average_ends(rt: &impl Print) {
    for (left, top) in [
        (2147483647, 2147483647),
        (-2147483648, -2147483648),
        (-2147483648, 2147483647),
    ] {
        average(rt, left, top);
    }
    for (predictor, value) in [
        (Predictor::AverageWestAndNorthWest, -2147483648),
        (Predictor::AverageNorthAndNorthWest, 2147483647),
        (Predictor::AverageNorthAndNorthEast, -2147483648),
    ] {
        guess(rt, predictor, all(value), 0);
    }
}

// toptop counts against the other five.
fn opposed(others: i32, toptop: i32) -> PredictionData {
    PredictionData {
        left: others,
        top: others,
        toptop,
        topleft: 0,
        topright: others,
        leftleft: others,
        toprightright: others,
    }
}

// Sums of -24, -8, 8 and 24 over 16, then the ends: where toptop is opposed the guess fits no 32-bit word.
fn average_alls(rt: &impl Print) {
    for value in [-2, -1, 0, 1, -2147483648, 2147483647] {
        guess(rt, Predictor::AverageAll, all(value), 0);
    }
    for (others, toptop) in [(2147483647, -2147483648), (-2147483648, 2147483647)] {
        guess(rt, Predictor::AverageAll, opposed(others, toptop), 0);
    }
}

// The weighted guess goes through as it is.
fn weighted(rt: &impl Print) {
    for value in [9223372036854775807, -9223372036854775808] {
        guess(rt, Predictor::Weighted, all(0), value);
    }
}

pub fn run(rt: &impl Print) {
    numbers(rt);
    all_fourteen(rt);
    selects(rt);
    gradients(rt);
    gradient_ends(rt);
    averages(rt);
    average_ends(rt);
    average_alls(rt);
    weighted(rt);
}

// The fourteen predictors: a pixel's guess from its neighbours. Neighbours are 32-bit and sums 64-bit, so none can wrap.
ghost use Rattle.std.specs.Prelude.{◌≡◌, pos, ◌+ℤ◌, ◌-ℤ◌};
ghost use Rattle.std.specs.Int.Signed.{quot_z};
ghost use Rattle.integer.specs.Order.{magnitude};
ghost use Rattle.predict.specs.Predictors.{numbered, selected, gradient, average_all, guess};

use crate::neighbours::PredictionData;

#[derive(Clone, Copy, Debug, PartialEq, Eq)]
pub enum Predictor {
    Zero,
    West,
    North,
    AverageWestAndNorth,
    Select,
    Gradient,
    Weighted,
    NorthEast,
    NorthWest,
    WestWest,
    AverageWestAndNorthWest,
    AverageNorthAndNorthWest,
    AverageNorthAndNorthEast,
    AverageAll,
}

// A number that is no predictor's.
#[derive(Clone, Copy, Debug, PartialEq, Eq)]
pub struct NoSuchPredictor(pub u32);

// (a + b) / 2 toward zero.
fn average(a: i32, b: i32) -> i64
    ensures { result ≡ quot_z (a +ℤ b) (pos 2) }
{
    (a as i64 + b as i64) / 2
}

// |a - b|
fn distance(a: i32, b: i32) -> i64
    ensures { result ≡ magnitude (a -ℤ b) }
{
    (a as i64 - b as i64).abs()
}

// Left where it is the nearer to left + top - topleft, else top.
fn select(left: i32, top: i32, topleft: i32) -> i64
    ensures { result ≡ selected left top topleft }
{
    if distance(top, topleft) < distance(left, topleft) {
        left as i64
    } else {
        top as i64
    }
}

// left + top - topleft, kept between left and top.
fn clamped_gradient(left: i32, top: i32, topleft: i32) -> i64
    ensures { result ≡ gradient left top topleft }
{
    let l = left as i64;
    let t = top as i64;
    let corner = topleft as i64;
    let least = t.min(l);
    let most = t.max(l);
    (l + t - corner).min(most).max(least)
}

// The weighted sum of six neighbours, / 16 toward zero.
fn average_all(data: PredictionData) -> i64
    ensures { result ≡ average_all «data» }
{
    let top = data.top as i64;
    let toptop = data.toptop as i64;
    let left = data.left as i64;
    let leftleft = data.leftleft as i64;
    let toprightright = data.toprightright as i64;
    let topright = data.topright as i64;
    (6 * top - 2 * toptop + 7 * left + leftleft + toprightright + 3 * topright + 8) / 16
}

// The predictor of a number, 0..13.
impl TryFrom<u32> for Predictor {
    type Error = NoSuchPredictor;

    ghost try_from_gives = { λ value result. result ≡ numbered value };

    fn try_from(value: u32) -> Result<Self, NoSuchPredictor> {
        match value {
            0 => Ok(Predictor::Zero),
            1 => Ok(Predictor::West),
            2 => Ok(Predictor::North),
            3 => Ok(Predictor::AverageWestAndNorth),
            4 => Ok(Predictor::Select),
            5 => Ok(Predictor::Gradient),
            6 => Ok(Predictor::Weighted),
            7 => Ok(Predictor::NorthEast),
            8 => Ok(Predictor::NorthWest),
            9 => Ok(Predictor::WestWest),
            10 => Ok(Predictor::AverageWestAndNorthWest),
            11 => Ok(Predictor::AverageNorthAndNorthWest),
            12 => Ok(Predictor::AverageNorthAndNorthEast),
            13 => Ok(Predictor::AverageAll),
            _ => Err(NoSuchPredictor(value)),
        }
    }
}

impl Predictor {
    // The guess for a pixel with these neighbours; wp_pred is the weighted predictor's.
    pub fn predict_one(self, data: PredictionData, wp_pred: i64) -> i64
        ensures { result ≡ guess self «data» wp_pred }
    {
        match self {
            Predictor::Zero => 0,
            Predictor::West => data.left as i64,
            Predictor::North => data.top as i64,
            Predictor::AverageWestAndNorth => average(data.top, data.left),
            Predictor::Select => select(data.left, data.top, data.topleft),
            Predictor::Gradient => clamped_gradient(data.left, data.top, data.topleft),
            Predictor::Weighted => wp_pred,
            Predictor::NorthEast => data.topright as i64,
            Predictor::NorthWest => data.topleft as i64,
            Predictor::WestWest => data.leftleft as i64,
            Predictor::AverageWestAndNorthWest => average(data.left, data.topleft),
            Predictor::AverageNorthAndNorthWest => average(data.top, data.topleft),
            Predictor::AverageNorthAndNorthEast => average(data.top, data.topright),
            Predictor::AverageAll => average_all(data),
        }
    }
}

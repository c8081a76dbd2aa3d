// The seven neighbours of a pixel: the fetch from three rows with the fallbacks of `get_rows`, and the shortcut
// inside a row.
ghost use Rattle.std.specs.Prelude.{◌≡◌, ◌<◌, ◌^◌, pos, get_or, true};
ghost use Rattle.predict.specs.Neighbours.{
  before,
  needed,
  fetched,
  Inside,
  in_domain,
  present,
  neighbours,
  shortcut,
  interior,
};
ghost use Rattle.refusal.specs.Paper.{said};

use refusal::Refusal;

// In the order of the Rust; the standard's names are W, N, NN, NW, NE, WW, NEE.
#[derive(Clone, Copy, Debug, PartialEq, Eq)]
pub struct PredictionData {
    pub left: i32,
    pub top: i32,
    pub toptop: i32,
    pub topleft: i32,
    pub topright: i32,
    pub leftleft: i32,
    pub toprightright: i32,
}

// Cell k of a row, or the fallback past its end. A row that is absent is an empty one.
fn cell_or(row: &[i32], k: usize, fallback: i32) -> i32
    ensures { result ≡ get_or row.now k fallback }
{
    if k < row.len() { row[k] } else { fallback }
}

// The cell `back` places before x, or the fallback where the row has not begun.
fn cell_before(row: &[i32], x: usize, back: usize, fallback: i32) -> i32
    ensures { result ≡ before row.now x back fallback }
{
    if back <= x {
        cell_or(row, x - back, fallback)
    } else {
        fallback
    }
}

// The seven neighbours of column x by their fallbacks, where rows that are absent are empty.
fn fetch_edge(row: &[i32], above: &[i32], above2: &[i32], x: usize) -> PredictionData
    requires { x < 2 ^ 16 }
    ensures { result ≡ fetched row.now above.now above2.now x }
{
    let left = cell_before(row, x, 1, cell_or(above, 0, 0));
    let top = cell_or(above, x, left);
    let topleft = cell_before(above, x, 1, left);
    let topright = cell_or(above, x + 1, top);
    let leftleft = cell_before(row, x, 2, left);
    let toptop = cell_or(above2, x, top);
    let toprightright = cell_or(above, x + 2, topright);
    PredictionData {
        left,
        top,
        toptop,
        topleft,
        topright,
        leftleft,
        toprightright,
    }
}

// The same where all seven are there: seven loads and no test.
fn fetch_inside(row: &[i32], above: &[i32], above2: &[i32], x: usize) -> PredictionData
    requires { Inside row.now above.now above2.now x }
    ensures { result ≡ fetched row.now above.now above2.now x }
{
    PredictionData {
        left: row[x - 1],
        top: above[x],
        toptop: above2[x],
        topleft: above[x - 1],
        topright: above[x + 1],
        leftleft: row[x - 2],
        toprightright: above[x + 2],
    }
}

// Whether column x of row y can be fetched. The width is the row's length; the rows above are looked at where y has them.
pub fn in_domain(row: &[i32], row_top: &[i32], row_toptop: &[i32], x: usize, y: usize) -> bool
    ensures { result ≡ in_domain row.now row_top.now row_toptop.now x y }
{
    let width = row.len();
    if 65536 < width || width <= x || 1073741824 <= y {
        return false;
    }
    // a return for each y: of one expression the compiler would leave the tests in a caller's loop
    if y == 0 {
        return true;
    }
    if row_top.len() != width {
        return false;
    }
    y == 1 || row_toptop.len() == width
}

// The neighbours of column x in row y, in the domain.
fn fetch(row: &[i32], row_top: &[i32], row_toptop: &[i32], x: usize, y: usize) -> PredictionData
    requires { in_domain row.now row_top.now row_toptop.now x y ≡ true }
    ensures { result ≡ fetched row.now (present 1 y row_top.now) (present 2 y row_toptop.now) x }
{
    if y == 0 {
        return fetch_edge(row, &row_top[..0], &row_toptop[..0], x);
    }
    if y == 1 {
        return fetch_edge(row, row_top, &row_toptop[..0], x);
    }
    // two tests, not one with `||`: so the compiled loop is the faster
    if x < 2 {
        return fetch_edge(row, row_top, row_toptop, x);
    }
    if row.len() <= x + 2 {
        return fetch_edge(row, row_top, row_toptop, x);
    }
    fetch_inside(row, row_top, row_toptop, x)
}

// The neighbours of column x in row y.
pub fn get_rows(
    row: &[i32],
    row_top: &[i32],
    row_toptop: &[i32],
    x: usize,
    y: usize,
) -> Result<PredictionData, Refusal>
    ensures { said result ≡ neighbours row.now row_top.now row_toptop.now x y }
{
    if in_domain(row, row_top, row_toptop, x, y) {
        Ok(fetch(row, row_top, row_toptop, x, y))
    } else {
        Err(Refusal::WrongSize)
    }
}

// Cell k of a row where it is needed, else 0.
fn cell_needed(row: &[i32], k: usize, needs: bool) -> i32
    ensures { result ≡ needed row.now k needs }
{
    if needs { cell_or(row, k, 0) } else { 0 }
}

// Whether x lies away from the ends of the row above and, where the row two up is needed, inside that.
fn is_interior(row_top: &[i32], row_toptop: &[i32], x: usize, needs_toptop: bool) -> bool
    ensures { result ≡ interior row_top.now row_toptop.now x needs_toptop }
{
    let width = row_top.len();
    2 <= x
        && width <= 65536
        && x < width
        && x + 2 < width
        && (!needs_toptop || row_toptop.len() <= 65536 && x < row_toptop.len())
}

impl PredictionData {
    // From the neighbours at x - 1 and the pixel there those at x, away from a row's ends. What is not needed becomes 0.
    pub fn update_for_interior_row(
        self,
        row_top: &[i32],
        row_toptop: &[i32],
        x: usize,
        cur: i32,
        needs_top: bool,
        needs_toptop: bool,
    ) -> Result<PredictionData, Refusal>
        ensures { said result ≡ shortcut self row_top.now row_toptop.now x cur needs_top needs_toptop }
    {
        if !is_interior(row_top, row_toptop, x, needs_toptop) {
            return Err(Refusal::WrongSize);
        }
        let toptop = cell_needed(row_toptop, x, needs_toptop);
        let toprightright = cell_needed(row_top, x + 2, needs_top);
        Ok(PredictionData {
            left: cur,
            top: self.topright,
            toptop,
            topleft: self.top,
            topright: self.toprightright,
            leftleft: self.left,
            toprightright,
        })
    }
}

// A plane is packed rows of the width.
ghost use Rattle.std.specs.Prelude.{◌≡◌};
ghost use Rattle.colour.specs.Rows.{is_row, IsRow, row_outcome};
ghost use Rattle.refusal.specs.Paper.{said};

use refusal::Refusal;

// Whether the plane has a row y of this width.
pub fn has_row(length: usize, width: usize, y: usize) -> bool
    ensures { result ≡ is_row length width y }
{
    width != 0 && width <= 65536 && length % width == 0 && y < 1073741824 && y * width < length
}

// Row y, as that part of the plane; an empty part if it is refused.
pub fn row(plane: &[i32], width: usize, y: usize) -> &[i32]
    ensures { IsRow plane.now plane.entry.ref_ptr width y result.now result.ref_ptr }
{
    if has_row(plane.len(), width, y) {
        let start = y * width;
        &plane[start..start + width]
    } else {
        &plane[..0]
    }
}

// The same part, to be written.
pub fn row_mut(plane: &mut [i32], width: usize, y: usize) -> &mut [i32]
    ensures { IsRow plane.old plane.entry.ref_ptr width y result.now result.ref_ptr }
{
    if has_row(plane.len(), width, y) {
        let start = y * width;
        &mut plane[start..start + width]
    } else {
        &mut plane[..0]
    }
}

// Why row y is refused, or that it is there.
pub fn row_refusal(plane: &[i32], width: usize, y: usize) -> Result<(), Refusal>
    ensures { said result ≡ row_outcome plane.now width y }
{
    if has_row(plane.len(), width, y) {
        Ok(())
    } else {
        Err(Refusal::WrongSize)
    }
}

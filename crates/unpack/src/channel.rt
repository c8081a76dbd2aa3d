// A channel, pixel after pixel, in a plane in which each pixel's residual stands where its value will.
ghost use Rattle.std.specs.Prelude.{◌≡◌, ◌≤◌, ◌<◌, Ok, length};
ghost use Rattle.unpack.specs.Steps.{IfRefused, done_of, one_pixel, steps};

use refusal::Refusal;
use session::Session;

// So many pixels are unpacked, and why no more.
#[derive(Clone, Copy, Debug, PartialEq, Eq)]
pub struct Stopped {
    pub done: usize,
    pub refusal: Refusal,
}

// Pixel k: its ask, then a put of what stands in its place. No pixel has references.
fn pixel(
    session: &mut Session,
    k: usize,
    records: &[i32],
    plane: &mut [i32],
    cells: &mut [i32],
    memory: &mut [u32],
) -> Result<(), Refusal>
    requires { k < length plane.old }
    ensures goes_on { result ≡ Ok tt → record { session = session.new; plane = plane.new; cells = cells.new; memory = memory.new } ≡ one_pixel records.now k (record { session = session.old; plane = plane.old; cells = cells.old; memory = memory.old }) }
    ensures stays { IfRefused result (plane.new ≡ plane.old) }
{
    session.ask(plane, &[], records, cells, memory)?;
    session.put(plane[k], plane, memory)
}

// The first `count` pixels of the plane.
pub fn unpack(
    session: &mut Session,
    count: usize,
    records: &[i32],
    plane: &mut [i32],
    cells: &mut [i32],
    memory: &mut [u32],
) -> Result<(), Stopped>
    requires { count ≤ length plane.old }
    ensures within { done_of count result ≤ count }
    ensures plane_is { plane.new ≡ (steps records.now (record { session = session.old; plane = plane.old; cells = cells.old; memory = memory.old }) (done_of count result)).plane }
{
    for k in 0..count {
        if let Err(refusal) = pixel(session, k, records, plane, cells, memory) {
            return Err(Stopped { done: k, refusal });
        }
    }
    Ok(())
}

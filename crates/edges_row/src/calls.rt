// The call with its line, and the sessions that it is made with.
use blend::WeightedHeader;
use refusal::Refusal;
use row::{Stopped, unpack_row};
use session::Session;

// What opening answers for width 2 and the default header.
pub fn opened(weights: bool, mask: u32) -> Result<Session, Refusal> {
    let mut cells = [0i32; 16];
    let mut memory = [0u32; 40];
    Session::open(
        2,
        WeightedHeader::default(),
        weights,
        mask,
        0,
        0,
        &mut cells,
        &mut memory,
    )
}

// The same with a header value out of range.
pub fn ranged(session: Session) -> Session {
    let mut next = session;
    next.weighted.header.p1c = 32;
    next
}

// The same at another place.
pub fn moved(session: Session, x: usize, y: usize) -> Session {
    let mut next = session;
    next.weighted.x = x;
    next.weighted.y = y;
    next
}

// The same that waits for a put.
pub fn asked(session: Session) -> Session {
    let mut next = session;
    next.weighted.asked = true;
    next
}

// The same after a refused walk.
pub fn closed(session: Session) -> Session {
    let mut next = session;
    next.live = false;
    next
}

fn place(rt: &impl Print, session: &Session) {
    let weighted = &session.weighted;
    let _ = print!(rt; " x={} y={}", weighted.x, weighted.y);
    if session.weights {
        let _ = print!(rt; " weights");
    }
    if !weighted.header.in_range() {
        let _ = print!(rt; " p1c=32");
    }
    if weighted.asked {
        let _ = print!(rt; " asked");
    }
    if !session.live {
        let _ = print!(rt; " closed");
    }
}

fn told(rt: &impl Print, session: &Session, answer: Result<(), Stopped>) {
    match answer {
        Ok(()) => {
            let _ = print!(rt; ": done, next");
            place(rt, session);
        }
        Err(stopped) => {
            print::refusal(stopped.refusal);
            let _ = print!(rt; " pixels={}", stopped.pixels);
            if !session.live {
                let _ = print!(rt; ", closed");
            }
        }
    }
}

// Plane, contexts and cells are told.
pub fn row(
    rt: &impl Print,
    session: &mut Session,
    residuals: &[i32],
    references: &[i32],
    records: &[i32],
    plane: &mut [i32],
    contexts: &mut [u32],
    cells: &mut [i32],
    memory: &mut [u32],
) {
    let _ = print!(rt; "row");
    place(rt, session);
    let _ = print!(rt;
        " plane={} residuals={} contexts={} references={} records={} memory={} cells={}",
        plane.len(),
        residuals.len(),
        contexts.len(),
        references.len(),
        records.len(),
        memory.len(),
        cells.len()
    );
    let answer = unpack_row(
        session, residuals, references, records, plane, contexts, cells, memory,
    );
    told(rt, session, answer);
    let _ = print!(rt; "; ");
    print::words(plane);
    print::naturals(contexts);
    let _ = print!(rt; " ");
    print::words(cells);
    let _ = println!(rt);
}

// The calls, each with its line.
use blend::WeightedHeader;
use refusal::Refusal;
use session::Session;
use weighted::state::WeightedState;

// A session at a place, as asks and puts leave it.
pub fn at(width: usize, x: usize, y: usize, weights: bool, mask: u32) -> Session {
    let mut weighted = WeightedState::start(WeightedHeader::default(), width);
    weighted.x = x;
    weighted.y = y;
    Session {
        weighted,
        weights,
        mask,
        live: true,
        guess: 0,
        multiplier: 0,
    }
}

// The same that waits for a put, whose residual is the value.
pub fn waiting(session: Session) -> Session {
    let mut next = session;
    next.weighted.asked = true;
    next.multiplier = 1;
    next
}

// The same with a header value out of range.
pub fn ranged(session: Session) -> Session {
    let mut next = session;
    next.weighted.header.p1c = 32;
    next
}

// A leaf record: predictor Zero, so that a value is offset + residual * multiplier, and the context.
pub fn leaf(multiplier: i32, context: i32, offset: i32) -> [i32; 6] {
    [-1, 0, multiplier, 0, context, offset]
}

fn place(rt: &impl Print, session: &Session) {
    let weighted = &session.weighted;
    let _ = print!(rt;
        " width={} x={} y={}",
        weighted.width, weighted.x, weighted.y
    );
    if session.weights {
        let _ = print!(rt; " weights");
    }
    if !weighted.header.in_range() {
        let _ = print!(rt; " p1c=32");
    }
    if weighted.asked {
        let _ = print!(rt; " asked");
    }
    if !session.live {
        let _ = print!(rt; " closed");
    }
}

fn refused(rt: &impl Print, session: &Session, refusal: Refusal) {
    print::refusal(refusal);
    if !session.live {
        let _ = print!(rt; ", closed");
    }
    let _ = print!(rt; "; ");
}

// The cells are told.
pub fn ask(
    rt: &impl Print,
    session: &mut Session,
    plane: &[i32],
    references: &[i32],
    records: &[i32],
    cells: &mut [i32],
    memory: &[u32],
) {
    let _ = print!(rt; "ask");
    place(rt, session);
    let _ = print!(rt;
        " plane={} references={} records={} memory={} cells={}",
        plane.len(),
        references.len(),
        records.len(),
        memory.len(),
        cells.len()
    );
    match session.ask(plane, references, records, cells, memory) {
        Ok(context) => {
            let _ = print!(rt; ": context {context}; ");
        }
        Err(refusal) => refused(rt, session, refusal),
    }
    print::words(cells);
    let _ = println!(rt);
}

// The plane is told.
pub fn put(
    rt: &impl Print,
    session: &mut Session,
    residual: i32,
    plane: &mut [i32],
    memory: &mut [u32],
) {
    let _ = print!(rt; "put");
    place(rt, session);
    let _ = print!(rt;
        " residual={residual} memory={} plane={}",
        memory.len(),
        plane.len()
    );
    match session.put(residual, plane, memory) {
        Ok(()) => {
            let _ = print!(rt; ": done; ");
        }
        Err(refusal) => refused(rt, session, refusal),
    }
    print::words(plane);
    let _ = println!(rt);
}

// Ask and put, without references.
pub fn pixel(
    rt: &impl Print,
    session: &mut Session,
    residual: i32,
    plane: &mut [i32],
    records: &[i32],
    cells: &mut [i32],
    memory: &mut [u32],
) {
    ask(rt, session, plane, &[], records, cells, memory);
    put(rt, session, residual, plane, memory);
}

// Opening: the header's ranges (12), the width's (11), the words lent (8), in that order.
use blend::WeightedHeader;
use refusal::Refusal;
use weighted::state::WeightedState;

pub fn told(rt: &impl Print, opened: Result<WeightedState, Refusal>) {
    match opened {
        Ok(_) => {
            let _ = println!(rt; ": opened");
        }
        Err(refusal) => print::refused(refusal),
    }
}

// With 30 words, which are enough for a width of 1.
fn header(rt: &impl Print, name: &str, header: WeightedHeader) {
    let _ = print!(rt; "open {name}");
    let mut memory = [7u32; 30];
    told(rt, WeightedState::open(header, 1, &mut memory));
}

fn all(p: u32, w: u32) -> WeightedHeader {
    WeightedHeader {
        p1c: p,
        p2c: p,
        p3ca: p,
        p3cb: p,
        p3cc: p,
        p3cd: p,
        p3ce: p,
        w0: w,
        w1: w,
        w2: w,
        w3: w,
    }
}

fn headers(rt: &impl Print) {
    header(rt, "default header", WeightedHeader::default());
    header(rt, "all 0", all(0, 0));
    header(rt, "all at the limit", all(31, 15));
    header(rt, "p values 32", all(32, 15));
    header(rt, "w values 16", all(31, 16));
}

fn last_p(rt: &impl Print) {
    let mut h = all(0, 0);
    h.p3ce = 32;
    header(rt, "p3ce 32 alone", h);
    let mut g = all(0, 0);
    g.p1c = 32;
    header(rt, "p1c 32 alone", g);
}

fn last_w(rt: &impl Print) {
    let mut h = all(0, 0);
    h.w3 = 16;
    header(rt, "w3 16 alone", h);
    let mut g = all(0, 0);
    g.w0 = 16;
    header(rt, "w0 16 alone", g);
}

// With 30 words, whatever the width needs.
fn width(rt: &impl Print, width: usize) {
    let _ = print!(rt; "open width={width} of 30 words");
    let mut memory = [7u32; 30];
    told(
        rt,
        WeightedState::open(WeightedHeader::default(), width, &mut memory),
    );
}

// A word less than a width of 1 needs.
fn one_short(rt: &impl Print) {
    let _ = print!(rt; "open width=1 of 29 words");
    let mut memory = [7u32; 29];
    told(
        rt,
        WeightedState::open(WeightedHeader::default(), 1, &mut memory),
    );
}

// Header before width before memory.
fn order(rt: &impl Print) {
    let _ = print!(rt; "open a bad header, width=0 of 0 words");
    let mut memory = [7u32; 1];
    told(rt, WeightedState::open(all(32, 0), 0, &mut memory[..0]));
    let _ = print!(rt; "open width=65537 of 0 words");
    told(rt, WeightedState::open(all(0, 0), 65537, &mut memory[..0]));
}

pub fn run(rt: &impl Print) {
    headers(rt);
    last_p(rt);
    last_w(rt);
    width(rt, 0);
    width(rt, 1);
    width(rt, 2);
    width(rt, 65536);
    width(rt, 65537);
    one_short(rt);
    order(rt);
}

// The seventeen words before the nodes.
ghost use Rattle.std.specs.Prelude.{◌≡◌, ◌≤◌, length};
ghost use Rattle.unpack.specs.Room.{has_room};

use crate::fault::Fault;
use crate::input;
use blend::WeightedHeader;
use integer::to_bits;

#[derive(Clone, Copy, Debug, PartialEq, Eq)]
pub struct Packed {
    pub width: usize,
    pub rows: usize,
    pub header: WeightedHeader,
    pub weights: bool,
    pub channel: i32,
    pub stream: i32,
    pub nodes: usize,
}

fn header_of(words: &[i32]) -> WeightedHeader
    requires { 17 ≤ length words.now }
{
    WeightedHeader {
        p1c: to_bits(words[2]),
        p2c: to_bits(words[3]),
        p3ca: to_bits(words[4]),
        p3cb: to_bits(words[5]),
        p3cc: to_bits(words[6]),
        p3cd: to_bits(words[7]),
        p3ce: to_bits(words[8]),
        w0: to_bits(words[9]),
        w1: to_bits(words[10]),
        w2: to_bits(words[11]),
        w3: to_bits(words[12]),
    }
}

fn packed_of(words: &[i32]) -> Packed
    requires { 17 ≤ length words.now }
{
    Packed {
        width: to_bits(words[0]) as usize,
        rows: to_bits(words[1]) as usize,
        header: header_of(words),
        weights: words[13] == 1,
        channel: words[14],
        stream: words[15],
        nodes: to_bits(words[16]) as usize,
    }
}

pub fn read(rt: &impl Input) -> Result<Packed, Fault> {
    let mut words = [0i32; 17];
    let got = input::read(rt, &mut words);
    if got < 17 {
        return Err(Fault::HeaderCutShort { got });
    }
    let weights = to_bits(words[13]);
    if 1 < weights {
        return Err(Fault::Weights(weights));
    }
    Ok(packed_of(&words))
}

impl Packed {
    // Whether the program has room for it: 1,048,576 pixels, a width of 16,384, and 8,191 nodes.
    #[tactic(auto, unfolding(crate::specs::Room::has_room))]
    pub fn fits(&self) -> bool
        ensures { result ≡ has_room self.now }
    {
        self.width <= 16384
            && self.rows <= 1048576
            && self.rows * self.width <= 1048576
            && self.nodes <= 8191
    }
}

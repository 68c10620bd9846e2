// Round cutters at their limits, and what they tell at every offset up to one past the reach.
use cutters::{Ball, Cone, Cutter, Flat, RoundTool};
use std::fmt;
use zmap::{Fault, Offset};

// The kinds of round cutters; those of the job reader are its own, since there a number makes a kind, and here a kind makes a number.
#[derive(Clone, Copy)]
enum Kind {
    Flat,
    Cone,
    Ball,
}

// By their numbers: 1 flat, 2 cone, 3 ball.
impl fmt::Display for Kind {
    fn fmt<W: fmt::Write>(&self, f: &mut fmt::Formatter<W>) -> fmt::Result {
        f.write_str(match self {
            Kind::Flat => "1",
            Kind::Cone => "2",
            Kind::Ball => "3",
        })
    }
}

// Kind, pitch, radius, tip radius and rise.
const CUTTERS: [(Kind, [i32; 4]); 31] = [
    (Kind::Flat, [100, 100, 0, 0]),
    (Kind::Flat, [10, 159, 0, 0]),
    (Kind::Flat, [1000, 15999, 0, 0]),
    (Kind::Cone, [100, 500, 100, 1000]),
    (Kind::Cone, [10, 159, 0, 10000]),
    (Kind::Cone, [1000, 15999, 0, 10000]),
    (Kind::Cone, [1000, 15999, 15999, 10000]),
    (Kind::Cone, [1000, 15999, 15998, 10000]),
    (Kind::Cone, [333, 5000, 100, 0]),
    (Kind::Cone, [100, 1599, 1, 1]),
    (Kind::Cone, [10, 0, 0, 10000]),
    (Kind::Cone, [37, 590, 123, 4567]),
    (Kind::Ball, [100, 500, 0, 0]),
    (Kind::Ball, [1000, 15999, 0, 0]),
    (Kind::Ball, [10, 159, 0, 0]),
    (Kind::Ball, [10, 0, 0, 0]),
    (Kind::Ball, [333, 5327, 0, 0]),
    (Kind::Ball, [100, 1, 0, 0]),
    (Kind::Flat, [100, 1599, 0, 0]),
    (Kind::Flat, [100, 1600, 0, 0]),
    (Kind::Ball, [100, 1600, 0, 0]),
    (Kind::Ball, [9, 10, 0, 0]),
    (Kind::Ball, [100, -1, 0, 0]),
    (Kind::Cone, [1001, -1, -1, -1]),
    (Kind::Cone, [100, 1600, -1, -1]),
    (Kind::Cone, [100, 500, 501, -1]),
    (Kind::Cone, [100, 500, -1, -1]),
    (Kind::Cone, [100, 500, 0, -1]),
    (Kind::Cone, [100, 500, 0, 10001]),
    (Kind::Cone, [100, 500, 500, 10000]),
    (Kind::Flat, [1000, 16000, 0, 0]),
];

// Prints the numbers of each cutter, and its heights or its refusal.
pub(crate) fn print(rt: &HostRuntime) -> anyhow::Result<()> {
    for (kind, [pitch, radius, tip, rise]) in CUTTERS {
        println!(rt; "cutter {kind} {pitch} {radius} {tip} {rise}")?;
        match made(kind, pitch, radius, tip, rise) {
            Ok(cutter) => show(rt, &cutter, -16, 16)?,
            Err(fault) => {
                let number = fault.parts().number;
                println!(rt; "refused {number}")?;
            }
        }
    }
    Ok(())
}

// The cutter of a kind, or its refusal.
fn made(kind: Kind, pitch: i32, radius: i32, tip: i32, rise: i32) -> Result<RoundTool, Fault> {
    match kind {
        Kind::Flat => Flat::new(pitch, radius).map(RoundTool::Flat),
        Kind::Cone => Cone::new(pitch, radius, tip, rise).map(RoundTool::Cone),
        Kind::Ball => Ball::new(pitch, radius).map(RoundTool::Ball),
    }
}

// Prints a line for each row of offsets from low to high, and in it each column: the heights, or `.` where none is covered.
pub(crate) fn show<C: Cutter>(
    rt: &HostRuntime,
    cutter: &C,
    low: i32,
    high: i32,
) -> anyhow::Result<()> {
    for dy in low..=high {
        for dx in low..=high {
            match cutter.profile(Offset { dx, dy }) {
                Some(height) => print!(rt; "{height} ")?,
                None => print!(rt; ". ")?,
            }
        }
        println!(rt; "")?;
    }
    Ok(())
}

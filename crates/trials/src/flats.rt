// Flat cutters at the limits of their pitch and radius, and what they cover.
use crate::answer::{Perhaps, Taking, taking};
use cutters::{Cutter, Flat};
use zmap::{Fault, Offset};

// Pitch and radius; the last ones fail both checks.
pub(crate) const FLATS: [[i32; 2]; 22] = [
    [100, -1],
    [100, 0],
    [100, 1599],
    [100, 1600],
    [100, i32::MIN],
    [100, i32::MAX],
    [1000, 15999],
    [1000, 16000],
    [999, 15983],
    [999, 15984],
    [10, 159],
    [10, 160],
    [9, 0],
    [10, 0],
    [1000, 0],
    [1001, 0],
    [i32::MIN, 0],
    [i32::MAX, 0],
    [9, -1],
    [1001, 16000],
    [0, 0],
    [-100, -1],
];

// Pitch, radius and offset; far offsets have squares that pass 32 bits.
pub(crate) const OFFSETS: [[i32; 4]; 33] = [
    [100, 0, 0, 0],
    [100, 0, 1, 0],
    [100, 0, 0, -1],
    [100, 99, 1, 0],
    [100, 100, 0, 0],
    [100, 100, 1, 0],
    [100, 100, -1, 0],
    [100, 100, 0, 1],
    [100, 100, 0, -1],
    [100, 100, 1, 1],
    [100, 100, 2, 0],
    [100, 141, 1, 1],
    [100, 142, 1, -1],
    [100, 1599, 15, 5],
    [100, 1599, -5, 15],
    [100, 1599, 15, 6],
    [100, 1599, 16, 0],
    [1000, 15999, 15, 5],
    [1000, 15999, -15, -5],
    [1000, 15999, 15, 6],
    [1000, 15999, 16, 0],
    [1000, 15999, 0, -16],
    [10, 159, 15, 5],
    [10, 159, 0, 16],
    [100, 1599, 65536, 0],
    [100, 1599, 65536, 65536],
    [100, 1599, 0, -65536],
    [100, 1599, 32768, 32768],
    [100, 1599, i32::MIN, 0],
    [100, 1599, 0, i32::MIN],
    [100, 1599, i32::MIN, i32::MIN],
    [100, 1599, i32::MAX, i32::MAX],
    [100, 1599, i32::MIN, i32::MAX],
];

// Whether pitch and radius make a cutter.
pub(crate) fn answer([pitch, radius]: [i32; 2]) -> Taking {
    taking(Flat::new(pitch, radius))
}

// What a cutter of the pitch and radius tells at an offset.
pub(crate) fn covered([pitch, radius, dx, dy]: [i32; 4]) -> Result<Perhaps<u32>, Fault> {
    let flat = Flat::new(pitch, radius)?;
    Ok(Perhaps(flat.profile(Offset { dx, dy })))
}

// A measured cutter, entry by entry.
use crate::rounds::show;
use cutters::Measured;
use zmap::{Offset, Pitch};

// The entries that are written: dx, dy and the height.
const ENTRIES: [[i32; 3]; 22] = [
    [1, 0, 250],
    [0, 1, -1],
    [-7, -7, 200000],
    [7, -7, -1],
    [-7, 7, 1],
    [7, 7, 77],
    [-3, 5, 12345],
    [0, 0, 0],
    [0, 0, 1],
    [0, 0, -1],
    [8, 0, 0],
    [-8, 0, 0],
    [0, 8, 0],
    [0, -8, 0],
    [2, 2, -2],
    [2, 2, 200001],
    [8, 8, 200001],
    [i32::MIN, i32::MAX, 0],
    [7, 0, i32::MIN],
    [1, 0, 251],
    [2, -1, 0],
    [-1, 2, 9],
];

// Prints what each entry answers, and the table before and after.
pub(crate) fn print(rt: &HostRuntime) -> anyhow::Result<()> {
    let mut cutter = Measured::new(Pitch::new(100)?);
    println!(rt; "measured, new")?;
    show(rt, &cutter, -8, 8)?;
    for [dx, dy, height] in ENTRIES {
        match cutter.write(Offset { dx, dy }, height) {
            Ok(()) => println!(rt; "entry {dx} {dy} {height}: taken")?,
            Err(fault) => {
                let number = fault.parts().number;
                println!(rt; "entry {dx} {dy} {height}: {number}")?;
            }
        }
    }
    println!(rt; "measured, written")?;
    show(rt, &cutter, -8, 8)
}

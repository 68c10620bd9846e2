// The trials: every limit from both sides, and one stored job from standard input, each with its answer.
#![tactic(auto)]

mod answer;
mod clamps;
mod faults;
mod flats;
mod grids;
mod poses;
mod rasters;
mod reading;
mod stocks;
mod surfaces;
mod topic;
mod turns;

use anyhow::anyhow;
use topic::all;

fn main(rt: HostRuntime) -> anyhow::Result<()> {
    run(&rt)
}

// Prints the answers of every topic, and the lines of the stored job last.
fn run(rt: &HostRuntime) -> anyhow::Result<()> {
    faults::print(rt)?;
    makings(rt)?;
    guards(rt)?;
    cuts(rt)?;
    bytes(rt)?;
    match runs::carry_out(rt)? {
        Ok(()) => Ok(()),
        Err(_) => Err(anyhow!("the stored job is refused")),
    }
}

// Grids, cutters and the lengths and heights of rasters.
fn makings(rt: &HostRuntime) -> anyhow::Result<()> {
    all(rt, "grid", &grids::GRIDS, |c| Ok(grids::answer(c)))?;
    all(rt, "flat", &flats::FLATS, |c| Ok(flats::answer(c)))?;
    all(rt, "cover", &flats::OFFSETS, |c| Ok(flats::covered(c)?))?;
    all(rt, "raster", &rasters::SHORT, |c| Ok(rasters::checked(&c)?))?;
    all(rt, "raster", &rasters::WHOLE, |c| Ok(rasters::checked(&c)?))?;
    all(rt, "raster", &rasters::LONG, |c| Ok(rasters::checked(&c)?))
}

// Samples, allowances, clamps and new blocks.
fn guards(rt: &HostRuntime) -> anyhow::Result<()> {
    all(rt, "sample", &rasters::NODES, |c| Ok(rasters::sampled(c)?))?;
    all(rt, "stock", &stocks::STOCKS, |c| Ok(stocks::made(c)))?;
    all(rt, "layer", &stocks::LAYERS, |c| Ok(stocks::layered(c)?))?;
    all(rt, "clamp", &clamps::CLAMPS, |c| Ok(clamps::added(c)))?;
    all(rt, "raise", &clamps::RAISES, |c| Ok(clamps::raised(c)))?;
    all(
        rt,
        "surface",
        &surfaces::SURFACES,
        |c| Ok(surfaces::answer(c)?),
    )?;
    all(rt, "new", &poses::LENGTHS, |c| Ok(poses::renewed(c)?))?;
    all(rt, "renewed", &poses::PLACES, |c| Ok(poses::placed(c)?))
}

// Poses.
fn cuts(rt: &HostRuntime) -> anyhow::Result<()> {
    all(rt, "pose", &poses::FORMS, |c| Ok(poses::clamped(c)?))?;
    all(rt, "pose", &poses::TIPS, |c| Ok(poses::clamped(c)?))?;
    all(rt, "single", &poses::ENDS, |c| Ok(poses::single(c)?))?;
    all(rt, "turn", &turns::TURNS, |c| Ok(turns::last(c)?))?;
    all(rt, "place", &turns::PLACES, |c| Ok(turns::placed(c)?))
}

// The bytes of jobs.
fn bytes(rt: &HostRuntime) -> anyhow::Result<()> {
    let heap = rt.alloc();
    all(
        rt,
        "bytes",
        &reading::lengths::LENGTHS,
        |c| Ok(reading::shortened(heap, c)?),
    )?;
    all(
        rt,
        "word",
        &reading::changes::ONE,
        |c| Ok(reading::changed(heap, [c])?),
    )?;
    all(
        rt,
        "words",
        &reading::changes::THREE,
        |[a, x, b, y, c, z]| { Ok(reading::changed(heap, [[a, x], [b, y], [c, z]])?) },
    )?;
    all(
        rt,
        "amounts",
        &reading::amounts::AMOUNTS,
        |c| Ok(reading::built(heap, c)?),
    )
}

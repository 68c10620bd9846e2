// The drawings: facets over small maps, and what single facets give over points.
#![tactic(auto)]

mod maps;
mod points;
mod tables;

fn main(rt: HostRuntime) -> anyhow::Result<()> {
    run(&rt)
}

// Prints every drawing, and the points last.
fn run(rt: &HostRuntime) -> anyhow::Result<()> {
    maps::print(rt)?;
    points::print(rt)
}

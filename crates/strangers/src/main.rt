// The program: a stranger's field and a stranger's cutter, which the planner knows only through its interfaces, set up, piled over and cut against.
#![tactic(auto)]

mod hook;
mod pile;
mod ramp;
mod trial;

fn main(rt: HostRuntime) -> anyhow::Result<()> {
    run(&rt)
}

// Prints what came of cutting against the stranger's field, and what a pile over it stands for.
fn run(rt: &HostRuntime) -> anyhow::Result<()> {
    trial::print(rt)?;
    pile::print(rt)
}

// The program: the profiles of many cutters, offset by offset, and of a measured one as its entries are written.
#![tactic(auto)]

mod measuring;
mod rounds;

fn main(rt: HostRuntime) -> anyhow::Result<()> {
    run(&rt)
}

fn run(rt: &HostRuntime) -> anyhow::Result<()> {
    rounds::print(rt)?;
    measuring::print(rt)
}

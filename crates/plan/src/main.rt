// The program: a job from standard input, cut, and a line for each move.
#![tactic(auto)]

fn main(rt: HostRuntime) -> anyhow::Result<()> {
    runs::run(&rt)
}

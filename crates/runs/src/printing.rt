// A job read and carried out, with a line for each move.
ghost use Rattle.jobs.specs.Encodings.{Allowed};
ghost use Rattle.jobs.specs.Jobs.{told};

use crate::guard::locked;
use jobs::{Bad, Job, Move, Store, read};
use lines::Line;
use milling::pose;
use std::io::Read;

// Prints what each move of the job on standard input did, or why it is no job.
pub fn run(rt: &HostRuntime) -> anyhow::Result<()> {
    if let Err(Bad { fault, section, at }) = carry_out(rt)? {
        let section = section.number();
        let line = Line::Bad { fault, section, at };
        println!(rt; "{line}")?;
    }
    Ok(())
}

// Prints what each move of the job on standard input did; or hands back why it is no job, and prints nothing.
// Asks for the memory of the largest job, then reads one byte past the longest at most.
pub fn carry_out(rt: &HostRuntime) -> anyhow::Result<Result<(), Bad>> {
    let store = Store::new(rt.alloc())?;
    let mut bytes = Vec::new(rt.alloc());
    rt.stdin().take(65537).read_to_end(&mut bytes)?;
    match read(store, bytes.as_slice()) {
        Ok(job) => {
            cut(rt, &job)?;
            Ok(Ok(()))
        }
        Err(bad) => Ok(Err(bad)),
    }
}

// Cuts a new block by the moves of the job, and prints what each did.
fn cut(rt: &HostRuntime, job: &Job) -> anyhow::Result<()>
    requires { Allowed (told job.now) }
{
    let guard = locked(job);
    let mut block = vec![in rt.alloc(); 0; job.grid.samples()]?;
    milling::new(&job.grid, block.as_mut_slice()).unwrap();
    for (i, m) in job.moves.as_slice().iter().enumerate() {
        let Move::Pose(at) = *m;
        let answer = pose(&guard, &job.cutter, block.as_mut_slice(), at);
        let line = Line::Move {
            number: i + 1,
            answer,
        };
        println!(rt; "{line}")?;
    }
    Ok(())
}

// The whole job.
ghost use Rattle.std.specs.Prelude.{◌≡◌, Ok, Err, MatchResult};
ghost use Rattle.jobs.specs.Parsers.{Gives};
ghost use Rattle.jobs.specs.Jobs.{told, sections, over, parse};
ghost use Rattle.jobs.specs.Encodings.{Decodes};

use crate::clamps::Clamps;
use crate::count::Counts;
use crate::cutter::Cutters;
use crate::grid::Grids;
use crate::heights::Heights;
use crate::moves::Moves;
use crate::reader::Reader;
use crate::{Bad, Job, Section, Store};
use zmap::Fault;

// The most bytes that a job may have.
const LONGEST: usize = 65536;

// Reads the job that the bytes encode into the store, or tells the first fault of them.
#[tactic(auto, using(crate::proofs::ExactJobs::law), unfolding(crate::specs::Jobs::parse))]
pub fn read(store: Store, bytes: &[u8]) -> Result<Job, Bad>
    ensures result { MatchResult result (λ job. parse bytes.now ≡ Ok (told job)) (λ bad. parse bytes.now ≡ Err bad) }
    ensures law { Decodes bytes.now result }
{
    if bytes.len() > LONGEST {
        return Err(over(Section::Whole));
    }
    let mut input = Reader { rest: bytes };
    let job = all_sections(store, &mut input)?;
    if !input.rest.is_empty() {
        return Err(over(Section::Moves));
    }
    Ok(job)
}

// Tells that there are bytes over, with the section that they stand after.
fn over(section: Section) -> Bad
    ensures { result ≡ over section }
{
    Bad {
        fault: Fault::Over,
        section,
        at: 0,
    }
}

// Reads the seven sections, one after another.
#[tactic(auto, unfolding(crate::specs::Jobs::sections))]
fn all_sections(store: Store, input: &mut Reader<'_>) -> Result<Job, Bad>
    ensures { Gives told result input.new.rest.now (sections input.old.rest.now) }
{
    let grid = input.single(&Grids, Section::Grid)?;
    let pitch = grid.pitch;
    let cutter = input.single(&Cutters { pitch }, Section::Cutter)?;
    let samples = Counts::exactly(grid.samples());
    let heights = input.listed(&Heights, Section::Heights, samples, store.heights)?;
    input.count(Section::Facets, Counts::exactly(0))?;
    input.count(Section::Allowance, Counts::exactly(0))?;
    let few = Counts::up_to(16);
    let clamps = input.listed(&Clamps { grid }, Section::Clamps, few, store.clamps)?;
    // all that a word can count, of which the bytes that are left hold at most 2,340
    let any = Counts::up_to(2147483647);
    let moves = input.listed(&Moves, Section::Moves, any, store.moves)?;
    Ok(Job {
        grid,
        cutter,
        heights,
        clamps,
        moves,
    })
}

// What a job is cut against.
ghost use Rattle.std.specs.Prelude.{◌≡◌};
ghost use Rattle.jobs.specs.Encodings.{Allowed};
ghost use Rattle.jobs.specs.Jobs.{told};
ghost use Rattle.setups.specs.Tables.{clamps_of};
ghost use Rattle.runs.specs.Guards.{Fresh};

use fields::Raster;
use jobs::Job;
use setups::{Clamp, OpenSetup, Setup};
use zmap::Field;

// Tells the heights of a job under its clamps, locked.
pub(crate) fn locked(job: &Job) -> Setup<Raster<'_>>
    requires { Allowed (told job.now) }
    ensures grid { result.below.grid ≡ job.now.grid }
    ensures heights { result.below.entries.now ≡ job.now.heights.items }
    ensures clamps { clamps_of result.clamps ≡ job.now.clamps.items }
{
    let mut setup = OpenSetup::new(Raster {
        grid: job.grid,
        entries: job.heights.as_slice(),
    });
    add_all(&mut setup, job.clamps.as_slice());
    setup.lock()
}

// Adds the clamps of a job in their order; those of a job that was read are never refused.
fn add_all<F: Field>(setup: &mut OpenSetup<F>, clamps: &[Clamp])
    requires { Fresh (F.Field.extent setup.old.below) (clamps_of setup.old.clamps) clamps.now }
    ensures clamps { clamps_of setup.new.clamps ≡ clamps.now }
    ensures rest { setup.new.below ≡ setup.old.below }
{
    for clamp in clamps {
        setup.add(*clamp).unwrap();
    }
}

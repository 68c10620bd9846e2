// Every sample of a field, read once.
ghost use Rattle.std.specs.Prelude.{◌<◌, MatchResult};
ghost use Rattle.fields.specs.Surveys.{Surveyed, ToldAt, Unfit};
ghost use Rattle.zmap.specs.Maps.{size};

use crate::Survey;
use zmap::{Fault, Field, Sample};

impl Survey<'_> {
    // Writes every sample of the field into the memory, in row order; or refuses memory that has not one place for each, and leaves it as it was.
    pub fn take<F: Field>(field: &F, memory: &mut [Sample]) -> Result<(), Fault>
        ensures { MatchResult result (λ _. Surveyed (F.Field.extent field.now) (F.Field.surface field.now) memory.new) (λ e. Unfit (F.Field.extent field.now) memory.old memory.new e) }
    {
        if memory.len() != field.grid().samples() {
            return Err(Fault::MapLength);
        }
        for (i, slot) in memory.iter_mut().enumerate() {
            *slot = told_at(field, i);
        }
        Ok(())
    }
}

// Answers what the field tells of the sample at a place of its map.
fn told_at<F: Field>(field: &F, i: usize) -> Sample
    requires { i < size (F.Field.extent field.now) }
    ensures { ToldAt (F.Field.extent field.now) (F.Field.surface field.now) i result }
{
    let n = field.grid().node_at(i).unwrap();
    field.sample(n).unwrap()
}

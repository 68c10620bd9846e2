// The kind of the heights.
ghost use Rattle.std.specs.Prelude.{ℤ};
ghost use Rattle.jobs.specs.Items.{height_of};

use crate::kind::Kind;
use crate::reader::Reader;
use zmap::Fault;

// The kind of the heights: one word each.
#[derive(Clone, Copy)]
pub(crate) struct Heights;

impl Kind for Heights {
    type Item = i32;

    ghost Told = { ℤ };

    ghost told = { λ z. z };

    ghost width = { 1 };

    ghost item = { λ _. height_of };

    fn read(&self, input: &mut Reader<'_>) -> Result<i32, Fault> {
        let [height] = input.words::<1>()?;
        Ok(height)
    }
}

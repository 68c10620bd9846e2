// How many records a section has.
ghost use Rattle.std.specs.Prelude.{◌≡◌, ℕ};
ghost use Rattle.jobs.specs.Items.{counted, count_of};

use crate::kind::Kind;
use crate::reader::Reader;
use zmap::Fault;

// The kind of the counts from low to high: one word each.
#[derive(Clone, Copy)]
pub(crate) struct Counts {
    pub low: usize,
    pub high: usize,
}

impl Counts {
    // Allows this count alone.
    pub(crate) fn exactly(n: usize) -> Counts
        ensures { result ≡ record { low = n; high = n } }
    {
        Counts { low: n, high: n }
    }

    // Allows the counts from none to this one.
    pub(crate) fn up_to(n: usize) -> Counts
        ensures { result ≡ record { low = 0; high = n } }
    {
        Counts { low: 0, high: n }
    }
}

impl Kind for Counts {
    type Item = usize;

    ghost Told = { ℕ };

    ghost told = { λ n. n };

    ghost width = { 1 };

    ghost item = { λ k. count_of k.low k.high };

    fn read(&self, input: &mut Reader<'_>) -> Result<usize, Fault> {
        let [n] = input.words::<1>()?;
        to_count(n, self)
    }
}

// Takes the word as one of the counts; no TryFrom, since which counts there are is the section's.
fn to_count(n: i32, counts: &Counts) -> Result<usize, Fault>
    ensures { result ≡ counted counts.now.low counts.now.high n }
{
    usize::try_from(n)
        .ok()
        .filter(|n| (counts.low..=counts.high).contains(n))
        .ok_or(Fault::Count)
}

// A chart as a field.
ghost use Rattle.std.specs.Prelude.{◌≡◌, IfSome, MatchOption};
ghost use Rattle.fields.specs.ChartRange.{chart_in_range};
ghost use Rattle.fields.specs.Charts.{chart_at, chart_sample, Charted};
ghost use Rattle.zmap.specs.Maps.{On, place};

use crate::{Chart, Entry};
use zmap::heights::{CEILING, is_height};
use zmap::{Class, Field, Grid, Node, Sample};

impl<T: Entry> Field for Chart<'_, T> {
    ghost extent = { λ x. x.grid };

    ghost surface = { λ x n. chart_sample T.told x.grid x.entries.now n };

    ghost heights = { λ x n on. chart_in_range T.told x.entries.now (place x.grid n) };

    fn grid(&self) -> Grid {
        self.grid
    }

    fn sample(&self, n: Node) -> Option<Sample>
        ensures value { MatchOption result (On self.now.grid n → ⊥) (λ s. On self.now.grid n × (s ≡ chart_sample T.told self.now.grid self.now.entries.now n)) }
        ensures charted { IfSome result (λ s. Charted T.told self.now.entries.now (place self.now.grid n) s) }
    {
        self.grid.place_of(n).map(|i| entry_at(self.entries, i))
    }
}

// What stands where a chart has no entry.
const UNREAD: Sample = Sample {
    height: CEILING,
    class: Class::Part,
};

// Answers what the entry at a place tells, or the ceiling where it is missing or tells no height.
#[tactic(auto, using(crate::proofs::Charting::charted))]
fn entry_at<T: Entry>(entries: &[T], i: usize) -> Sample
    ensures value { result ≡ chart_at T.told entries.now i }
    ensures charted { Charted T.told entries.now i result }
{
    entries
        .get(i)
        .map(|e| e.told())
        .filter(|s| is_height(s.height))
        .unwrap_or(UNREAD)
}

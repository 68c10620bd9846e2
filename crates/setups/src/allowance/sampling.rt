// An allowance over a field as a field.
ghost use Rattle.std.specs.Prelude.{◌≡◌, IfSome, MatchOption};
ghost use Rattle.zmap.specs.Limits.{Height};
ghost use Rattle.zmap.specs.Maps.{On};
ghost use Rattle.setups.specs.StockRange.{stocked_in_range};
ghost use Rattle.setups.specs.Stocks.{Carries, stocked, stocked_sample};

use crate::layer::layered;
use crate::{Allowance, Stock};
use zmap::heights::CEILING;
use zmap::{Class, Field, Grid, Node, Sample};

impl<F: Field> Field for Allowance<F> {
    ghost extent = { λ x. F.Field.extent x.below };

    ghost surface = { λ x n. stocked_sample x.stock.microns (F.Field.surface x.below n) };

    ghost heights = { λ x n on. stocked_in_range x.stock.microns (F.Field.surface x.below n) (F.Field.heights x.below n on) };

    fn grid(&self) -> Grid {
        self.below.grid()
    }

    fn sample(&self, n: Node) -> Option<Sample>
        ensures value { MatchOption result (On (F.Field.extent self.now.below) n → ⊥) (λ s. On (F.Field.extent self.now.below) n × (s ≡ stocked_sample self.now.stock.microns (F.Field.surface self.now.below n))) }
        ensures carries { IfSome result (λ s. Carries self.now.stock.microns (F.Field.surface self.now.below n) s) }
    {
        let below = self.below.sample(n)?;
        let height = stocked(below.height, self.stock);
        Some(layered(Class::Allowance, below, height))
    }
}

// Answers the height with the stock on it, under the ceiling.
fn stocked(height: i32, stock: Stock) -> i32
    requires { Height height }
    ensures { result ≡ stocked stock.microns height }
{
    (height + stock.microns as i32).min(CEILING)
}

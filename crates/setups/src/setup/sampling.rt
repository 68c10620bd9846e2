// The locked set-up as a field.
ghost use Rattle.std.specs.Prelude.{◌≡◌, IfSome, MatchOption};
ghost use Rattle.zmap.specs.Maps.{On};
ghost use Rattle.setups.specs.SurfaceRange.{setup_in_range};
ghost use Rattle.setups.specs.Surfaces.{Stands, guard_surface, setup_sample};
ghost use Rattle.setups.specs.Tables.{clamps_of};

use crate::Setup;
use crate::layer::layered;
use zmap::{Class, Field, Grid, Node, Sample};

impl<F: Field> Field for Setup<F> {
    ghost extent = { λ x. F.Field.extent x.below };

    ghost surface = { λ x. guard_surface (F.Field.surface x.below) x.clamps };

    ghost heights = { λ x n on. setup_in_range x.clamps n (F.Field.surface x.below n) (F.Field.heights x.below n on) };

    fn grid(&self) -> Grid {
        self.below.grid()
    }

    #[tactic(auto, unfolding(crate::specs::Surfaces::setup_sample))]
    fn sample(&self, n: Node) -> Option<Sample>
        ensures value { MatchOption result (On (F.Field.extent self.now.below) n → ⊥) (λ s. On (F.Field.extent self.now.below) n × (s ≡ setup_sample (clamps_of self.now.clamps) n (F.Field.surface self.now.below n))) }
        ensures stands { IfSome result (λ s. Stands (clamps_of self.now.clamps) n (F.Field.surface self.now.below n) s) }
    {
        let below = self.below.sample(n)?;
        let height = self.clamps.over(n, below.height);
        Some(layered(Class::Fixture, below, height))
    }
}

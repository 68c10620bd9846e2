// A ramp as a field.
ghost use Rattle.std.specs.Prelude.{◌≡◌, ◌*◌, ◌<◌, ◌≤◌};
ghost use Rattle.strangers.specs.RampRange.{ramp_in_range};
ghost use Rattle.strangers.specs.Ramps.{ramp_class, ramp_height, ramp_sample};

use crate::ramp::Ramp;
use zmap::heights::CEILING;
use zmap::{Class, Field, Grid, Node, Sample};

impl Field for Ramp {
    ghost extent = { λ x. x.grid };

    ghost surface = { λ x n. ramp_sample x.base x.step n };

    ghost heights = { λ x n on. ramp_in_range x.base x.step n.column x.low };

    fn grid(&self) -> Grid {
        self.grid
    }

    fn sample(&self, n: Node) -> Option<Sample> {
        if !self.grid.has(n) {
            return None;
        }
        Some(Sample {
            height: self.height_at(n.column),
            class: class_at(n.column),
        })
    }
}

impl Ramp {
    // Answers the height at a column.
    fn height_at(&self, column: usize) -> i32
        requires { column < 512 }
        ensures { result ≡ ramp_height self.now.base self.now.step column }
    {
        (self.base + self.climb(column) as i32).min(CEILING)
    }

    // Answers how far a column stands above column 0, were there no ceiling.
    fn climb(&self, column: usize) -> u32
        requires { column < 512 }
        ensures value { result ≡ self.now.step * column }
        ensures small { result ≤ 512000000 }
    {
        self.step * column as u32
    }
}

// Answers the class at a column: part and allowance by turns.
fn class_at(column: usize) -> Class
    ensures { result ≡ ramp_class column }
{
    if column % 2 == 0 {
        Class::Part
    } else {
        Class::Allowance
    }
}

// What a layer tells of the sample below it.
ghost use Rattle.std.specs.Prelude.{◌≡◌};
ghost use Rattle.setups.specs.Layers.{layered};

use zmap::{Class, Sample};

// Answers the sample below at the height that a layer gives, of the layer's class where that is another height.
#[tactic(auto, unfolding(crate::specs::Layers::layered))]
pub(crate) fn layered(class: Class, below: Sample, height: i32) -> Sample
    ensures { result ≡ layered class below height }
{
    if height == below.height {
        below
    } else {
        Sample { height, class }
    }
}

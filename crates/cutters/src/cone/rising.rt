// How high a cone stands above its tip.
ghost use Rattle.std.specs.Prelude.{◌*◌, ◌≤◌};
ghost use Rattle.cutters.specs.Cones.{ConeStands};

use crate::Cone;

impl Cone {
    // Tells the height where the square of the distance is so many µm².
    #[tactic(auto, using(crate::specs::ConesLemmas::cone_rising))]
    pub(crate) fn height(&self, square: u32) -> u32
        requires { square ≤ self.now.disc.radius * self.now.disc.radius }
        ensures stands { ConeStands self.now.tip self.now.rise square result }
        ensures bound { result ≤ 200000 }
    {
        if square <= self.tip * self.tip {
            return 0;
        }
        let root = (u64::from(self.rise * self.rise) * u64::from(square)).isqrt();
        ((root - u64::from(self.rise * self.tip)) / 1000) as u32
    }
}

// Which offsets a disc covers.
ghost use Rattle.cutters.specs.Discs.{Squared};

use crate::Disc;
use zmap::Offset;

impl Disc {
    // Tells the square of the distance to the offset, in µm², or nothing where the disc does not cover it.
    #[tactic(auto, using(crate::specs::DiscsLemmas::disc_squares))]
    pub(crate) fn square_at(&self, o: Offset) -> Option<u32>
        ensures { Squared self.now.pitch.microns self.now.radius o result }
    {
        let dx = o.dx.unsigned_abs();
        let dy = o.dy.unsigned_abs();
        // No disc is that wide, and nearer offsets have squares that fit.
        if dx > 15 || dy > 15 {
            return None;
        }
        let pitch = self.pitch.microns;
        let square = pitch * pitch * (dx * dx + dy * dy);
        (square <= self.radius * self.radius).then_some(square)
    }
}

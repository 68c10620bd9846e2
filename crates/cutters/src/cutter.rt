// The interface of cutters: a pitch, and the height of the underside above the tip at each offset.
ghost use Rattle.std.specs.Prelude.{◌≡◌, ℕ};
ghost use Rattle.cutters.specs.Profiles.{Profile, Lawful};

use zmap::{Offset, Pitch};

// A cutter tells its pitch and its profile, and changes nothing.
pub trait Cutter {
    // The widest reach: at most 15, and nothing is covered past it on any side.
    const REACH: u32;

    // The constant, as clauses and laws name it.
    ghost REACH: { ℕ };

    // The pitch that the profile is drawn for, in µm.
    ghost spacing: { Self → ℕ };

    // The height of the underside above the tip, in µm, at each offset that is covered.
    ghost shape: { Self → Profile };

    // Tells the pitch that the profile is drawn for.
    fn pitch(&self) -> Pitch
        ensures { result.microns ≡ spacing self.now };

    // Tells the height of the underside above the tip, or nothing where the offset is not covered.
    fn profile(&self, o: Offset) -> Option<u32>
        ensures { result ≡ shape self.now o };

    // The laws of cutters, which the shape keeps.
    ghost lawful: { (t : Self) → Lawful REACH (shape t) };
}

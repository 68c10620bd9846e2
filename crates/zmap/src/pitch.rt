// The distance between neighbouring samples.
ghost use Rattle.zmap.specs.Limits.{Within};

mod making;

// A pitch in µm, from 10 to 1,000.
#[derive(Clone, Copy, PartialEq, Eq)]
pub struct Pitch {
    pub microns: u32,
    ghost fine: { Within 10 1000 microns },
}

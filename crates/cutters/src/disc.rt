// The disc that round cutters cover.
ghost use Rattle.std.specs.Prelude.{◌*◌, ◌<◌, ◌≤◌};

use zmap::Pitch;

mod covering;
mod making;

// A disc of the radius, in µm, on samples of the pitch.
#[derive(Clone, Copy)]
pub struct Disc {
    pub pitch: Pitch,
    pub radius: u32,
    ghost slim: { radius ≤ 15999 },
    ghost near: { radius < 16 * pitch.microns },
}

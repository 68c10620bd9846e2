// How much an allowance leaves on what is below.
ghost use Rattle.std.specs.Prelude.{◌≤◌};

mod making;

// The height of an allowance in µm, at most 100,000.
#[derive(Clone, Copy)]
pub struct Stock {
    pub microns: u32,
    ghost thin: { microns ≤ 100000 },
}

// The range of heights.
ghost use Rattle.std.specs.Prelude.{◌≡◌};
ghost use Rattle.zmap.specs.Limits.{is_height};

// The lowest height, in µm.
pub const FLOOR: i32 = -500000;

// The highest height, in µm.
pub const CEILING: i32 = 500000;

// Tells whether z is a height: from the floor to the ceiling.
pub fn is_height(z: i32) -> bool
    ensures { result ≡ is_height z }
{
    (FLOOR..=CEILING).contains(&z)
}

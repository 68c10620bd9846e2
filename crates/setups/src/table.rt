// The table of clamps inside a set-up.
ghost use Rattle.std.specs.Prelude.{◌≤◌};
ghost use Rattle.setups.specs.Clamps.{High};

use crate::Clamp;

mod adding;
mod raising;
mod standing;

// Sixteen entries, of which the first so many are clamps; every entry's height is in range.
// An array and a count: a table asks for no memory, and one clamp of it changes through `&mut self`.
#[derive(Clone, Copy)]
pub(crate) struct Clamps {
    entries: [Clamp; 16],
    count: usize,
    ghost few: { count ≤ 16 },
    ghost high: { High entries },
}

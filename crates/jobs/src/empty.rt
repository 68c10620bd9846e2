// Memory that is asked for before what it is for is known.
ghost use Rattle.std.specs.Prelude.{◌≡◌, ◌≤◌, [], vec_capacity};

mod making;

// Room for N items, of which there are none yet.
#[derive(Drop)]
pub struct Empty<T, const N: usize> {
    pub room: Vec<T>,
    ghost bare: { room.items ≡ [] },
    ghost wide: { N ≤ vec_capacity room },
}

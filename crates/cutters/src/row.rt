// A row of measured heights.
ghost use Rattle.std.specs.Prelude.{◌≡◌, length};
ghost use Rattle.cutters.specs.Entries.{Entries};

// Fifteen entries, each a height in µm, or -1 where nothing is covered.
// Plain numbers and no Option: the size and the numbers of the table are fixed.
#[derive(Clone, Copy)]
pub(crate) struct Row {
    pub(crate) heights: [i32; 15],
    ghost sized: { length heights ≡ 15 },
    ghost ranged: { Entries heights },
}

// The bytes of a job that are still to be read.
ghost use Rattle.std.specs.Prelude.{◌≤◌, length};

mod records;
mod words;

// The bytes that are left, of 65,536 at most.
#[derive(Drop)]
pub(crate) struct Reader<'a> {
    pub rest: &'a [u8],
    ghost short: { length rest.now ≤ 65536 },
}

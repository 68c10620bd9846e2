// The kind word of a cutter.
ghost use Rattle.std.specs.Prelude.{◌≡◌};
ghost use Rattle.jobs.specs.Kinds.{kind_of};

use zmap::Fault;

// The kinds of round cutters that a word names.
#[derive(Clone, Copy)]
pub(crate) enum CutterKind {
    Flat,
    Cone,
    Ball,
}

impl TryFrom<i32> for CutterKind {
    type Error = Fault;

    ghost try_from_gives = { λ w r. r ≡ kind_of w };

    fn try_from(word: i32) -> Result<CutterKind, Fault> {
        match word {
            1 => Ok(CutterKind::Flat),
            2 => Ok(CutterKind::Cone),
            3 => Ok(CutterKind::Ball),
            _ => Err(Fault::Kind),
        }
    }
}

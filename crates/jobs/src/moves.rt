// The kind of the moves.
ghost use Rattle.std.specs.Prelude.{◌≡◌};
ghost use Rattle.jobs.specs.Items.{move_of};
ghost use Rattle.jobs.specs.declared.job.Move.{Move as Asked};

use crate::Move;
use crate::kind::Kind;
use crate::reader::Reader;
use zmap::{Fault, Spot};

// The kind of the moves: seven words each.
#[derive(Clone, Copy)]
pub(crate) struct Moves;

impl Kind for Moves {
    type Item = Move;

    ghost Told = { Asked };

    ghost told = { λ m. m };

    ghost width = { 7 };

    ghost item = { λ _. move_of };

    fn read(&self, input: &mut Reader<'_>) -> Result<Move, Fault> {
        let words = input.words()?;
        to_move(words)
    }
}

// Takes the words kind, column, row and tip, and three more for the other end, as a move.
// No TryFrom of the public type, since where the words stand is the reader's alone, as with the other kinds.
fn to_move(words: [i32; 7]) -> Result<Move, Fault>
    ensures { result ≡ move_of words }
{
    let [kind, column, row, tip, _, _, _] = words;
    // One kind so far, for which an enum of its own would be no plainer.
    match kind {
        1 => Ok(Move::Pose(Spot { column, row, tip })),
        _ => Err(Fault::Kind),
    }
}

// The kind of the cutters.
ghost use Rattle.std.specs.Prelude.{◌≡◌, Ok, Err, MatchResult};
ghost use Rattle.jobs.specs.Items.{Turned, turned, turned_of};

use crate::kind::Kind;
use crate::reader::Reader;
use cutters::{Ball, Cone, Flat, RoundTool};
use zmap::{Fault, Pitch};

mod word;

use word::CutterKind;

// The kind of the round cutters of a pitch: four words each.
#[derive(Clone, Copy)]
pub(crate) struct Cutters {
    pub pitch: Pitch,
}

impl Kind for Cutters {
    type Item = RoundTool;

    ghost Told = { Turned };

    ghost told = { turned };

    ghost width = { 4 };

    ghost item = { λ k. turned_of k.pitch.microns };

    fn read(&self, input: &mut Reader<'_>) -> Result<RoundTool, Fault> {
        let words = input.words()?;
        to_cutter(words, self.pitch)
    }
}

// Takes the words kind, radius, tip radius and rise as a cutter of the pitch; no TryFrom, since it needs the pitch.
#[tactic(auto, unfolding(crate::specs::Items::fitted))]
fn to_cutter(words: [i32; 4], pitch: Pitch) -> Result<RoundTool, Fault>
    ensures { MatchResult result (λ t. turned_of pitch.microns words ≡ Ok (turned t)) (λ e. turned_of pitch.microns words ≡ Err e) }
{
    let [kind, radius, tip, rise] = words;
    let microns = pitch.microns as i32;
    match CutterKind::try_from(kind)? {
        CutterKind::Flat => Ok(RoundTool::Flat(Flat::new(microns, radius)?)),
        CutterKind::Cone => Ok(RoundTool::Cone(Cone::new(microns, radius, tip, rise)?)),
        CutterKind::Ball => Ok(RoundTool::Ball(Ball::new(microns, radius)?)),
    }
}

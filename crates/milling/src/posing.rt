// The pose: the tip over a node at a height, cut or refused.
ghost use Rattle.std.specs.Prelude.{◌≡◌, IfOk, MatchOption, MatchResult};
ghost use Rattle.zmap.specs.Limits.{Height};
ghost use Rattle.zmap.specs.Maps.{On};
ghost use Rattle.setups.specs.Surfaces.{guard_of};
ghost use Rattle.milling.specs.Calls.{Posed, tool_of};
ghost use Rattle.milling.specs.Checks.{Over, Passed, Refused, formed, node_at, pose_at};

use crate::Removed;
use crate::poses::Pose;
use crate::scan::Scan;
use cutters::Cutter;
use setups::Setup;
use zmap::heights::is_height;
use zmap::{End, Fault, Field, Grid, Node, Pitch, Spot};

// Sets each covered sample to the lower of what it was and the tip plus its profile height; or refuses, and leaves the block.
pub fn pose<F: Field, C: Cutter>(
    guard: &Setup<F>,
    cutter: &C,
    block: &mut [i32],
    at: Spot,
) -> Result<Removed, Fault>
    ensures { Posed (guard_of F.Field.extent F.Field.surface guard.now) (tool_of C.Cutter.spacing C.Cutter.shape cutter.now)
        block.old block.new at.column at.row at.tip result }
{
    let grid = guard.grid();
    let pose = check(&grid, cutter.pitch(), block.len(), at)?;
    let scan = Scan {
        guard,
        cutter,
        grid,
        pose,
    };
    if let Some(invaded) = scan.first_invaded() {
        return Err(Fault::Invaded(0, invaded.sample, invaded.class));
    }
    Ok(scan.carve(block))
}

// Tells the pose, or the first refusal of its plain numbers.
fn check(grid: &Grid, pitch: Pitch, long: usize, at: Spot) -> Result<Pose, Fault>
    ensures accepts { let ks = formed grid.now pitch.microns long at.column at.row at.tip in
        MatchResult result (λ p. Passed ks) (λ e. Refused ks e) }
    ensures ready { IfOk result (λ p. On grid.now p.node × Height p.tip) }
    ensures pose { IfOk result (λ p. p ≡ pose_at at.column at.row at.tip) }
{
    if pitch != grid.pitch {
        return Err(Fault::CutterPitch);
    }
    // a block is a lent slice by a rule of the project, so each call tests its length
    if long != grid.samples() {
        return Err(Fault::BlockLength);
    }
    let node = node_at(grid, at).ok_or(Fault::NodeOff(End::Start))?;
    if !is_height(at.tip) {
        return Err(Fault::TipRange(End::Start));
    }
    Ok(Pose { node, tip: at.tip })
}

// Tells the node at a column and a row, or nothing off the map.
fn node_at(grid: &Grid, at: Spot) -> Option<Node>
    ensures { MatchOption result (Over grid.now at.column at.row → ⊥)
        (λ n. Over grid.now at.column at.row × On grid.now n × (n ≡ node_at at.column at.row)) }
{
    let column = usize::try_from(at.column).ok()?;
    let row = usize::try_from(at.row).ok()?;
    Some(Node { column, row }).filter(|n| grid.has(*n))
}

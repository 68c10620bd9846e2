// Cutters behind one interface, and the order in which their offsets are scanned.
#![tactic(auto)]

mod ball;
mod cone;
mod cutter;
mod disc;
mod flat;
mod measured;
mod place;
mod ring;
mod round;
mod row;
mod table;

pub use ball::Ball;
pub use cone::Cone;
pub use cutter::Cutter;
pub use disc::Disc;
pub use flat::Flat;
pub use measured::Measured;
pub use ring::offsets;
pub use round::RoundTool;

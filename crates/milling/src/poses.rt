// Where a cutter stands.
use zmap::Node;

// The tip over a node, at a height in µm.
#[derive(Clone, Copy)]
pub struct Pose {
    pub node: Node,
    pub tip: i32,
}

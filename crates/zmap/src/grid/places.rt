// Where nodes stand on a grid.
ghost use Rattle.std.specs.Prelude.{◌≡◌, ℕ, ◌<◌, ◌≤◌, T, ℤ, pos, ◌+ℤ◌, IfSome, MatchOption, ◌≢◌};
ghost use Rattle.zmap.specs.Maps.{On, At, place, size};
ghost use Rattle.zmap.specs.declared.node.Node.{Node as Place};

use crate::{Grid, Node, Offset};

impl Grid {
    // Tells how many samples the map has.
    pub fn samples(&self) -> usize
        ensures { result ≡ size self.now }
    {
        self.columns * self.rows
    }

    // Tells whether the node stands over the map.
    pub fn has(&self, n: Node) -> bool
        ensures yes { T result → On self.now n }
        ensures no { On self.now n → T result }
    {
        n.column < self.columns && n.row < self.rows
    }

    // Tells the place of the node in row order, or nothing off the map.
    pub fn place_of(&self, n: Node) -> Option<usize>
        ensures value { MatchOption result (On self.now n → ⊥) (λ i. On self.now n × (i ≡ place self.now n)) }
        ensures inside { IfSome result (λ i. i < size self.now) }
    {
        if self.has(n) {
            return Some(n.row * self.columns + n.column);
        }
        None
    }

    // Tells the node at a place in row order, or nothing past the map.
    pub fn node_at(&self, i: usize) -> Option<Node>
        ensures { MatchOption result (size self.now ≤ i) (λ n. On self.now n × (place self.now n ≡ i)) }
    {
        if i >= self.samples() {
            return None;
        }
        Some(Node {
            column: i % self.columns,
            row: i / self.columns,
        })
    }

    // Tells the sample at an offset from a node of the map, or nothing where that is off the map.
    pub fn beside(&self, n: Node, o: Offset) -> Option<Node>
        ensures { MatchOption result ((s : Place) → On self.now n → On self.now s → At n o s → ⊥) (λ s. On self.now n × On self.now s × At n o s) }
    {
        if !self.has(n) {
            return None;
        }
        let column = moved(n.column, o.dx, self.columns)?;
        let row = moved(n.row, o.dy, self.rows)?;
        Some(Node { column, row })
    }
}

// Tells the index that stands by so many after i, or nothing where that is not below the end.
fn moved(i: usize, by: i32, end: usize) -> Option<usize>
    requires { (i < end) × (end ≤ 512) }
    ensures { MatchOption result ((k : ℕ) → k < end → pos k ≢ (pos i +ℤ by)) (λ k. (k < end) × (pos k ≡ (pos i +ℤ by))) }
{
    let k = i as i64 + i64::from(by);
    (0..end as i64).contains(&k).then(|| k as usize)
}

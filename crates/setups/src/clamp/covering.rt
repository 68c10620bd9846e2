// Which samples a clamp is over.
ghost use Rattle.std.specs.Prelude.{◌≡◌};
ghost use Rattle.setups.specs.Tables.{is_in, is_over};

use crate::{Clamp, Span};
use zmap::Node;

impl Clamp {
    // Tells whether the clamp is over the sample.
    pub(crate) fn covers(&self, n: Node) -> bool
        ensures { result ≡ is_over self.now n }
    {
        self.columns.holds(n.column) && self.rows.holds(n.row)
    }
}

impl Span {
    // Tells whether the index is from the first to the last of the span.
    fn holds(&self, index: usize) -> bool
        ensures { result ≡ is_in self.now index }
    {
        let x = index as i128;
        i128::from(self.first) <= x && x <= i128::from(self.last)
    }
}

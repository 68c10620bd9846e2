// Whether the vertices of all facets are in range.
ghost use Rattle.std.specs.Prelude.{◌≡◌, ℕ, MatchBool, MatchOption, MatchResult};
ghost use Rattle.facets.specs.Vertices.{Sound};
ghost use Rattle.zmap.specs.declared.fault.Fault.TheVariants as fault;
ghost use Rattle.fields.specs.Drawings.{AllSound, FirstUnsound};

use crate::Facets;
use facets::Facet;
use zmap::Fault;

impl Facets<'_> {
    // Answers nothing, or the first facet with a vertex out of range.
    pub fn check(&self) -> Result<(), Fault>
        ensures { MatchResult result (λ _. AllSound self.now.facets.now) (λ e. (i : ℕ) × (e ≡ fault.FacetVertex i) × FirstUnsound self.now.facets.now i) }
    {
        // The refusal stands in plain sight, which it would not in a `map_or`.
        match first_unsound(self.facets) {
            Some(i) => Err(Fault::FacetVertex(i)),
            None => Ok(()),
        }
    }
}

// Finds the number of the first facet with a vertex out of range.
fn first_unsound(facets: &[Facet]) -> Option<usize>
    ensures { MatchOption result (AllSound facets.now) (λ i. FirstUnsound facets.now i) }
{
    facets.iter().position(is_unsound)
}

// Tells whether a facet has a vertex out of range.
fn is_unsound(facet: &Facet) -> bool
    ensures { MatchBool result (Sound facet.now → ⊥) (Sound facet.now) }
{
    !facet.is_sound()
}

// Plain numbers in a range.
ghost use Rattle.std.specs.Prelude.{◌≡◌, true, false, pos, MatchOption};
ghost use Rattle.zmap.specs.Limits.{within};

// Takes the number as unsigned, or answers nothing where it is not from low to high.
pub fn within(low: u32, high: u32, x: i32) -> Option<u32>
    ensures { MatchOption result (within (pos low) (pos high) x ≡ false) (λ n. (within (pos low) (pos high) x ≡ true) × (pos n ≡ x)) }
{
    u32::try_from(x).ok().filter(|n| (low..=high).contains(n))
}

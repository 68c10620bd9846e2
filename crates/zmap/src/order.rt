// The greater of two values, and so, one after the other, the greatest of a run.
ghost use Rattle.std.specs.Prelude.{◌≡◌, if◌then◌else◌};
ghost use Rattle.std.specs.Ordering.{is_lt};

// Picks the greater of two values of any kind with a total order; the first where neither is.
pub fn greater<T: Ord + Copy>(a: T, b: T) -> T
    ensures { result ≡ (if is_lt (T.Ord.cmp a b) then b else a) }
{
    if a.cmp(&b).is_lt() { b } else { a }
}

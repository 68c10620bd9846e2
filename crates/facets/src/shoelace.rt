// The height of a facet over a point of the plan, by areas.
ghost use Rattle.std.specs.Prelude.{◌≡◌, ◌*◌, ◌^◌, ◌<◌, ◌≤◌, IfSome};
ghost use Rattle.facets.specs.Shoelaces.{half, swept, mean, plane_at, height_at};

use crate::corner::Corner;
use crate::point::Point;

// Computes one half of the shoelace formula, below 2 to the 54.
fn half(p: Point, q: Corner, r: Corner) -> u64
    ensures value { result ≡ half p q.at r.at }
    ensures bound { result < 2 ^ 54 }
{
    product(p.x, q.at.y) + product(q.at.x, r.at.y) + product(r.at.x, p.y)
}

// Multiplies two numbers of a plan.
fn product(x: u32, y: u32) -> u64
    ensures { result ≡ x * y }
{
    u64::from(x) * u64::from(y)
}

// Computes twice the area of p, q, r where they go round counter-clockwise, or nothing where they go the other way.
#[tactic(auto, unfolding(crate::specs::Shoelaces::swept))]
fn swept(p: Point, q: Corner, r: Corner) -> Option<u64>
    ensures value { result ≡ swept p q.at r.at }
    ensures bound { IfSome result (λ d. d < 2 ^ 54) }
{
    half(p, q, r).checked_sub(half(p, r, q))
}

// Computes the mean of the corners' heights, rounded up, where the last two weigh v and w and all three weigh n; nothing where there are no such weights.
#[tactic(auto, unfolding(crate::specs::Shoelaces::mean))]
fn mean(n: u64, v: u64, w: u64, a: Corner, b: Corner, c: Corner) -> Option<u64>
    requires whole { n ≤ 3000000000000 }
    requires parts { (v < 2 ^ 54) × (w < 2 ^ 54) }
    ensures value { result ≡ mean n v w a.z b.z c.z }
    ensures bound { IfSome result (λ h. h ≤ 1000000) }
{
    if n == 0 || n < v + w {
        return None;
    }
    Some(((n - (v + w)) * u64::from(a.z) + v * u64::from(b.z) + w * u64::from(c.z)).div_ceil(n))
}

// Tells the height over p of the plane through the corners, where they go round it counter-clockwise.
#[tactic(auto, using(crate::proofs::Heights::swept_whole), unfolding(crate::specs::Shoelaces::plane_at))]
fn plane(p: Point, a: Corner, b: Corner, c: Corner) -> Option<u64>
    ensures value { result ≡ plane_at p a b c }
    ensures bound { IfSome result (λ k. k ≤ 1000000) }
{
    let n = swept(a.at, b, c)?;
    let v = swept(p, c, a)?;
    let w = swept(p, a, b)?;
    mean(n, v, w, a, b, c)
}

// Tells the height over p of the plane through the corners, in µm above the floor, where their plan covers p.
#[tactic(auto, unfolding(crate::specs::Shoelaces::height_at))]
pub(crate) fn height(p: Point, a: Corner, b: Corner, c: Corner) -> Option<u64>
    ensures value { result ≡ height_at p a b c }
    ensures bound { IfSome result (λ k. k ≤ 1000000) }
{
    plane(p, a, b, c).or_else(|| plane(p, a, c, b))
}

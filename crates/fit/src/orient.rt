// A homography with its denominator positive at a point that is known to be visible. Assumes nothing.
ghost use Rattle.std.specs.Prelude.{◌≡◌};
ghost use Rattle.fit.specs.Orient as Orient;

// An overall sign is free: all nine change it where the denominator at (x, y) is negative.
#[tactic(auto, unfolding(crate::specs::Orient::orient))]
pub fn orient(m: [f64; 9], x: f64, y: f64) -> [f64; 9]
    ensures { result ≡ Orient.orient m x y }
{
    if m[6] * x + m[7] * y + m[8] < 0.0 {
        return [
            -m[0], -m[1], -m[2], -m[3], -m[4], -m[5], -m[6], -m[7], -m[8],
        ];
    }
    m
}

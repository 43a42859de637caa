ghost use Rattle.std.specs.Prelude.{◌^◌, ◌≤◌, unsigned_abs};

/// How many places a view shows along an axis, at fixed sizes: the coefficients of the rule variables, and the rest.
#[derive(Clone, Copy)]
pub struct Extent {
    pub x: i64,
    pub y: i64,
    pub rest: i64,
    pub ghost small_x: { unsigned_abs x ≤ 2 ^ 27 },
    pub ghost small_y: { unsigned_abs y ≤ 2 ^ 27 },
    pub ghost small_rest: { unsigned_abs rest ≤ 2 ^ 53 },
}

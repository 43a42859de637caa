ghost use Rattle.std.specs.Prelude.{◌^◌, ◌≤◌, unsigned_abs};

/// A coordinate at fixed sizes: the coefficients of the rule variables, and the rest.
#[derive(Clone, Copy)]
pub struct Line {
    pub x: i64,
    pub y: i64,
    pub rest: i64,
    pub ghost small_x: { unsigned_abs x ≤ 2 ^ 26 },
    pub ghost small_y: { unsigned_abs y ≤ 2 ^ 26 },
    pub ghost small_rest: { unsigned_abs rest ≤ 2 ^ 52 },
}

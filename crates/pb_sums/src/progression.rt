ghost use Rattle.std.specs.Prelude.{◌^◌, ◌≤◌, unsigned_abs};

/// A number that changes by the same step from each place to the next: at place 0, and the step.
#[derive(Clone, Copy)]
pub struct Progression {
    pub first: i64,
    pub step: i64,
    pub ghost small_first: { unsigned_abs first ≤ 2 ^ 27 },
    pub ghost small_step: { unsigned_abs step ≤ 2 ^ 27 },
}

ghost use Rattle.std.specs.Prelude.{◌≡◌, ◌<◌, ◌≤◌, ◌↔◌, IsTrue, slice_index};
ghost use Rattle.pb_linear.specs.Limits.{is_zero_from};

/// The greatest size that a variable may have.
pub const SIZE_TOP: u64 = 1_048_576;

/// The sizes of a transform's variables, in their order; entries past the count are 0.
#[derive(Clone, Copy, PartialEq, Eq, Debug)]
pub struct Sizes {
    pub count: u8,
    pub of: [u64; 8],
    pub ghost few: { count ≤ 8 },
    pub ghost zero_past_count: { IsTrue (is_zero_from count of) },
}

/// The least size of each variable; the greatest is `SIZE_TOP`. A call that looks for greatest values
/// asks for a count of at most 8, and for least sizes of at most `SIZE_TOP`.
#[derive(Clone, Copy, PartialEq, Eq, Debug)]
pub struct Ranges {
    pub count: u8,
    pub least: [u64; 8],
}

impl Ranges {
    ghost use Rattle.pb_linear.specs.Sizes.{InRange, leasts_of, sizes_of};

    /// Whether the sizes are in range: the counts agree, and each size is between its least size
    /// and `SIZE_TOP`. Any ranges may be asked.
    #[tactic(auto, using(crate::proofs::SizesLemmas::hold_from, crate::proofs::SizesLemmas::hold_at))]
    pub fn hold(&self, s: &Sizes) -> bool
        ensures { IsTrue result
            ↔ ((self.now.count ≡ s.now.count) × InRange (leasts_of self.now) (sizes_of s.now)) }
    {
        if self.count != s.count {
            return false;
        }
        for i in 0..self.count as usize {
            if !self.admits(i, s.of[i]) {
                return false;
            }
        }
        true
    }

    /// Whether the size of variable `i` is in range.
    fn admits(&self, i: usize, size: u64) -> bool
        requires { i < 8 }
        ensures { IsTrue result ↔ ((slice_index self.now.least i ≤ size) × (size ≤ SIZE_TOP)) }
    {
        self.least[i] <= size && size <= SIZE_TOP
    }
}

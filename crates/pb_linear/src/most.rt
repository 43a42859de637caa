ghost use Rattle.std.specs.Prelude.{◌≡◌, ℕ, ◌+◌, ◌<◌, ◌≤◌, ◌↔◌, IsTrue, pos, ◌≤ℤ◌, List, slice_index};
ghost use Rattle.pb_linear.specs.Form.{numbers, value};
ghost use Rattle.pb_linear.specs.Most.{FirstGreatest, Most};
ghost use Rattle.pb_linear.specs.Numbers.{part_of};
ghost use Rattle.pb_linear.specs.Sizes.{InRange, IsRanges, le_everywhere, leasts_of, sizes_of};

use crate::form::Form;
use crate::sizes::{Ranges, SIZE_TOP, Sizes};

impl Form {
    /// The greatest value over all sizes in range, and for each variable the least size that
    /// reaches it.
    #[tactic(auto, using(crate::proofs::SizesLemmas::top_of))]
    pub fn most(&self, ranges: &Ranges) -> (i64, Sizes)
        requires { IsRanges ranges.now }
        ensures counted { result.1.count ≡ ranges.now.count }
        ensures most { Most (value self.now) (leasts_of ranges.now) result.0 (sizes_of result.1) }
    {
        let sizes = self.greatest_sizes(ranges);
        (self.at(&sizes), sizes)
    }

    /// Whether the form is at most 0 at every sizes in range.
    #[tactic(auto, using(crate::proofs::Parts::most_test))]
    pub fn everywhere_le0(&self, ranges: &Ranges) -> bool
        requires { IsRanges ranges.now }
        ensures exact { IsTrue result
            ↔ ((sizes : List ℕ) → InRange (leasts_of ranges.now) sizes → value self.now sizes ≤ℤ pos 0) }
        ensures test { result ≡ le_everywhere (leasts_of ranges.now) (value self.now) (λ _. pos 0) }
    {
        self.most(ranges).0 <= 0
    }

    /// For each variable the first size in range at which its part is greatest.
    #[tactic(auto, using(crate::proofs::SizesLemmas::zeros_from))]
    fn greatest_sizes(&self, ranges: &Ranges) -> Sizes
        requires { IsRanges ranges.now }
        ensures counted { result.count ≡ ranges.now.count }
        ensures greatest { (i : ℕ) → i < ranges.now.count → FirstGreatest
            (part_of (numbers self.now) i) (slice_index ranges.now.least i) (SIZE_TOP + 1) (slice_index result.of i) }
    {
        let mut of = [0; 8];
        for i in 0..ranges.count as usize {
            of[i] = self.greatest_size(i, ranges.least[i]);
        }
        Sizes {
            count: ranges.count,
            of,
        }
    }

    /// The first size from `least` to the top at which the part of variable `i` is greatest. Since
    /// the part grows by a constant when the variable grows by 12, that size is among the first
    /// twelve or the last twelve.
    fn greatest_size(&self, i: usize, least: u64) -> u64
        requires there { i < 8 }
        requires least { least ≤ SIZE_TOP }
        ensures { FirstGreatest (part_of (numbers self.now) i) least (SIZE_TOP + 1) result }
    {
        let near = self.first_greatest(i, least, (least + 12).min(SIZE_TOP + 1));
        let far = self.first_greatest(i, least.max(SIZE_TOP - 11), SIZE_TOP + 1);
        if self.part(i, near) < self.part(i, far) {
            far
        } else {
            near
        }
    }

    /// The first size from `start` to before `end` at which the part of variable `i` is greatest.
    fn first_greatest(&self, i: usize, start: u64, end: u64) -> u64
        requires there { i < 8 }
        requires some { start < end }
        requires end { end ≤ SIZE_TOP + 1 }
        ensures { FirstGreatest (part_of (numbers self.now) i) start end result }
    {
        let mut best = start;
        for size in start + 1..end {
            if self.part(i, best) < self.part(i, size) {
                best = size;
            }
        }
        best
    }
}

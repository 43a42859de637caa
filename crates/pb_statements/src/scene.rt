ghost use Rattle.std.specs.Prelude.{◌≡◌, pos, slice_index};
ghost use Rattle.pb_model.specs.Bodies.{view_of};
ghost use Rattle.pb_program.specs.declared.meaning.Meaning.TheVariants.{Read};
ghost use Rattle.pb_statements.specs.Places.{grid_shown, IsShown};
ghost use Rattle.pb_statements.specs.Stored.{bound, store_of};

use crate::port::NamesTurn;
use crate::scratch::Scratch;
use crate::shown::Shown;
use pb_linear::Sizes;
use pb_program::Meaning;
use pb_values::View;
use std::marker::{Model, PhantomData};

/// What a body is run around: the sizes, the rule variables, and the views of the reads.
#[derive(Drop)]
pub struct Scene<'a, N: NamesTurn> {
    pub sizes: &'a Sizes,
    pub x: u64,
    pub y: u64,
    pub views: &'a [View],
    pub of: PhantomData<N>,
}

impl<'a, N: NamesTurn> Model for Scene<'a, N> {
    ghost use Rattle.pb_statements.specs.Shown.{Around, around_of, IsSetting};

    ghost Value = { Around };

    ghost view = { λ s. around_of N.turn s.sizes.now s.x s.y s.views.now };

    ghost invariant = { λ s. IsSetting N.turn s.sizes.now s.x s.y s.views.now };
}

impl<'a, N: NamesTurn> Scene<'a, N> {
    /// The size of a variable; 0 past the last one.
    #[tactic(auto, using(crate::proofs::SceneLemmas::size_there, crate::proofs::SceneLemmas::size_past))]
    pub(crate) fn size(&self, k: u32) -> i64
        ensures { result ≡ pos (slice_index self.now.sizes k) }
    {
        if k < 8 {
            self.sizes.of[k as usize] as i64
        } else {
            0
        }
    }

    /// The rule variables.
    #[inline(always)]
    #[tactic(auto, using(crate::proofs::SceneLemmas::x_is, crate::proofs::SceneLemmas::y_is))]
    pub(crate) fn variables(&self) -> (i64, i64)
        ensures x { result.0 ≡ self.now.x }
        ensures y { result.1 ≡ self.now.y }
    {
        (self.x as i64, self.y as i64)
    }

    /// What a read shows.
    #[inline(always)]
    #[tactic(auto, using(crate::proofs::SceneLemmas::read_grid, crate::proofs::SceneLemmas::read_past))]
    fn read(&self, scratch: &Scratch, k: u32) -> Shown
        ensures grid { grid_shown N.turn scratch.now.numbers.items result ≡ view_of (bound self.now scratch.now) (store_of scratch.now) (Read k) }
        ensures shown { IsShown N.turn scratch.now.numbers.items result }
    {
        if (k as usize) < self.views.len() {
            Shown::Told(self.views[k as usize])
        } else {
            Shown::Nothing
        }
    }

    /// What the name of a view stands for.
    #[inline(always)]
    #[tactic(auto, using(crate::proofs::SceneLemmas::none_grid), unfolding(pb_model::specs::Bodies::view_of))]
    pub(crate) fn shown(&self, scratch: &Scratch, what: Meaning) -> Shown
        ensures grid { grid_shown N.turn scratch.now.numbers.items result ≡ view_of (bound self.now scratch.now) (store_of scratch.now) what }
        ensures shown { IsShown N.turn scratch.now.numbers.items result }
    {
        match what {
            Meaning::Read(k) => self.read(scratch, k),
            Meaning::Output(k) => scratch.output(k),
            Meaning::Size(_) | Meaning::RuleX | Meaning::RuleY => Shown::Nothing,
            Meaning::Number(_) | Meaning::Matrix(_) => Shown::Nothing,
        }
    }
}

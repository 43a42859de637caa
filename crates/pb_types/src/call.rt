ghost use Rattle.std.specs.Prelude.{◌≡◌, ◌+◌, ◌++◌, drop, length, map, slice_get, take};
ghost use Rattle.std.specs.Option.{option_map};
ghost use Rattle.pb_program.specs.Exprs.{bare};
ghost use Rattle.pb_program.specs.Trees.{bare_transform};
ghost use Rattle.pb_types.specs.Least.{least_of};
ghost use Rattle.pb_types.specs.Plans.{takes, gives, misfit, count_broken};

use crate::known::Known;
use crate::least::{least, unless};
use crate::sort::{lone_name, place_of};
use pb_program::{Decl, Expr, Named, Transform};

#[tactic(auto, using(std::proofs::lemmas::List::take_min))]
fn inputs(t: &Transform) -> &[Decl]
    ensures { result.now ≡ take t.now.inputs t.now.matrices }
{
    let end = (t.inputs as usize).min(t.matrices.len());
    &t.matrices[..end]
}

#[tactic(auto, using(crate::proofs::PlanLemmas::given))]
fn outputs(t: &Transform) -> &[Decl]
    ensures { result.now ≡ drop (t.now.inputs + t.now.middles) t.now.matrices }
{
    let start = (t.inputs as usize + t.middles as usize).min(t.matrices.len());
    &t.matrices[start..]
}

/// The matrices that the transform with this number takes.
#[tactic(auto, using(crate::proofs::PlanLemmas::takes_none, crate::proofs::PlanLemmas::takes_some))]
pub(crate) fn takes(transforms: &[Transform], number: u32) -> &[Decl]
    ensures { result.now ≡ takes (slice_get (map bare_transform transforms.now) number) }
{
    match transforms.get(number as usize) {
        Some(t) => inputs(t),
        None => &[],
    }
}

/// The matrices that the transform with this number gives.
#[tactic(auto, using(crate::proofs::PlanLemmas::gives_none, crate::proofs::PlanLemmas::gives_some))]
pub(crate) fn gives(transforms: &[Transform], number: u32) -> &[Decl]
    ensures { result.now ≡ gives (slice_get (map bare_transform transforms.now) number) }
{
    match transforms.get(number as usize) {
        Some(t) => outputs(t),
        None => &[],
    }
}

/// The place of a matrix that hasn't the dimensions of the one that is wanted.
#[tactic(auto, using(crate::proofs::LeastLemmas::least_none))]
fn misfit(at: u32, dims: Option<usize>, wanted: Option<usize>) -> Option<u32>
    ensures { result ≡ least_of (misfit at dims wanted) }
{
    match (dims, wanted) {
        (Some(dims), Some(wanted)) => unless(dims == wanted, at),
        _ => None,
    }
}

fn wanted(matrices: &[Decl], i: usize) -> Option<usize>
    ensures { result ≡ option_map (λ d. d.dims) (slice_get matrices.now i) }
{
    Some(usize::from(matrices.get(i)?.dims))
}

/// The place of a called name, where the numbers of arguments and targets aren't those of its transform.
fn count(
    takes: &[Decl],
    gives: &[Decl],
    targets: &[Named],
    at: u32,
    arguments: &[Expr],
) -> Option<u32>
    ensures { result ≡ least_of (count_broken at (length targets.now) (length (map bare arguments.now)) takes.now gives.now) }
{
    let fits = arguments.len() == takes.len() && targets.len() == gives.len();
    unless(fits, at)
}

impl<'a> Known<'a> {
    ghost use Rattle.pb_types.specs.Plans.{argument_broken, argument_dims, numbered, target_misfit, transform_call, make_all, targets_broken};
    ghost use Rattle.pb_types.specs.Working.{argument_in, arguments_in};

    /// The least place of a fault in the call of a transform that takes and gives these matrices.
    #[tactic(auto, using(crate::proofs::LeastLemmas::least_append), unfolding(crate::specs::Working::arguments_in))]
    pub(crate) fn transform_call(
        &mut self,
        takes: &[Decl],
        gives: &[Decl],
        targets: &[Named],
        at: u32,
        arguments: &[Expr],
    ) -> Option<u32>
        ensures found { result ≡ least_of (transform_call self.old takes.now gives.now targets.now at (map bare arguments.now)) }
        ensures left { self.new ≡ make_all self.old targets.now }
    {
        let given = self.arguments(takes, arguments);
        let made = self.targets(gives, targets);
        least(
            count(takes, gives, targets, at, arguments),
            least(given, made),
        )
    }

    #[tactic(auto, using(crate::proofs::LeastLemmas::least_append))]
    fn targets(&mut self, gives: &[Decl], targets: &[Named]) -> Option<u32>
        ensures found { result ≡ least_of (numbered (target_misfit self.old gives.now) 0 targets.now ++ targets_broken self.old targets.now) }
        ensures left { self.new ≡ make_all self.old targets.now }
    {
        let misfits = self.misfits(gives, targets);
        least(misfits, self.make_all(targets))
    }

    #[tactic(auto, using(crate::proofs::PlanLemmas::numbered_next, crate::proofs::PlanLemmas::numbered_end, crate::proofs::PlanLemmas::arguments_listed))]
    fn arguments(&self, takes: &[Decl], arguments: &[Expr]) -> Option<u32>
        ensures { result ≡ least_of (arguments_in self.now takes.now arguments.now) }
    {
        let mut found = None;
        for (i, next) in arguments.iter().enumerate() {
            found = least(found, self.argument(takes, i, next));
        }
        found
    }

    #[tactic(auto, using(crate::proofs::LeastLemmas::least_append, crate::proofs::LeastLemmas::least_one), unfolding(crate::specs::Working::argument_in, crate::specs::Working::name_in, crate::specs::Working::place_in))]
    fn argument(&self, takes: &[Decl], i: usize, e: &Expr) -> Option<u32>
        ensures { result ≡ least_of (argument_in self.now takes.now i e.now) }
    {
        let name = lone_name(e);
        match name {
            Some(name) => least(
                unless(self.is_given(name.what), name.at),
                misfit(place_of(e), self.dims(name.what), wanted(takes, i)),
            ),
            None => Some(place_of(e)),
        }
    }

    #[tactic(auto, using(crate::proofs::PlanLemmas::numbered_at, crate::proofs::PlanLemmas::numbered_end))]
    fn misfits(&self, gives: &[Decl], targets: &[Named]) -> Option<u32>
        ensures { result ≡ least_of (numbered (target_misfit self.now gives.now) 0 targets.now) }
    {
        let mut found = None;
        for (i, next) in targets.iter().enumerate() {
            found = least(found, self.misfit(gives, i, *next));
        }
        found
    }

    #[tactic(auto, unfolding(crate::specs::Plans::target_misfit))]
    fn misfit(&self, gives: &[Decl], i: usize, name: Named) -> Option<u32>
        ensures { result ≡ least_of (target_misfit self.now gives.now i name) }
    {
        misfit(name.at, self.dims(name.what), wanted(gives, i))
    }
}

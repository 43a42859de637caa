ghost use Rattle.std.specs.Prelude.{◌≡◌, ◌∷◌, map, [], IfOk, IfErr, OnOk};
ghost use Rattle.std.specs.List.{flat_map};
ghost use Rattle.pb_syntax.specs.declared.refusal.Refusal.TheVariants.{Memory};
ghost use Rattle.pb_program.specs.Exprs.{bare, exprs};
ghost use Rattle.pb_program.specs.Plans.{items};
ghost use Rattle.pb_program.specs.Trees.{bare_rule, bare_transform};
ghost use Rattle.pb_types.specs.Least.{least_of};
ghost use Rattle.pb_types.specs.Plans.{plan_view_broken, dim_broken, term_broken, call_broken, made_by, plan_broken};
ghost use Rattle.pb_types.specs.Working.{assigned_in, made_in, step_in, steps_in, after_in};

use crate::call::{gives, takes};
use crate::known::{Known, Target};
use crate::least::{least, unless};
use crate::views::is_cell;
use pb_program::{
    Called, Callee, Expr, LocalForm, LocalTerm, Meaning, Named, Read, Rule, Stmt, Transform,
};
use pb_syntax::Refusal;
use std::alloc::Global;

/// The least place of a view that is a cell.
#[tactic(auto, using(crate::proofs::LeastLemmas::least_next, crate::proofs::LeastLemmas::least_end))]
fn plan_views(views: &[Read]) -> Option<u32>
    ensures { result ≡ least_of (flat_map plan_view_broken views.now) }
{
    let mut found = None;
    for next in views {
        found = least(found, plan_view(next));
    }
    found
}

#[tactic(auto, unfolding(crate::specs::Plans::plan_view_broken))]
fn plan_view(r: &Read) -> Option<u32>
    ensures { result ≡ least_of (plan_view_broken r.now) }
{
    unless(!is_cell(r.view), r.at)
}

/// The least place of a name in the dimensions of a local that is no size variable.
#[tactic(auto, using(crate::proofs::LeastLemmas::least_next, crate::proofs::LeastLemmas::least_end))]
fn dims(dims: &[LocalForm]) -> Option<u32>
    ensures { result ≡ least_of (flat_map dim_broken dims.now) }
{
    let mut found = None;
    for next in dims {
        found = least(found, dim(next));
    }
    found
}

#[tactic(auto, unfolding(crate::specs::Plans::dim_broken))]
fn dim(dim: &LocalForm) -> Option<u32>
    ensures { result ≡ least_of (dim_broken dim.now) }
{
    terms(&dim.terms)
}

#[tactic(auto, using(crate::proofs::LeastLemmas::least_at, crate::proofs::LeastLemmas::least_end))]
fn terms(terms: &[LocalTerm]) -> Option<u32>
    ensures { result ≡ least_of (flat_map term_broken terms.now) }
{
    let mut found = None;
    for next in terms {
        found = least(found, term(next));
    }
    found
}

#[tactic(auto, using(crate::proofs::LeastLemmas::least_none), unfolding(crate::specs::Plans::term_broken))]
fn term(term: &LocalTerm) -> Option<u32>
    ensures { result ≡ least_of (term_broken term.now) }
{
    match term.name {
        Some(name) => unless(matches!(name.what, Meaning::Size(_)), name.at),
        None => None,
    }
}

/// The least place of a fault in a rule that is a plan.
#[tactic(auto, using(crate::proofs::LeastLemmas::least_append), unfolding(crate::specs::Working::steps_in))]
pub(crate) fn plan(
    alloc: Global,
    transforms: &[Transform],
    r: &Rule,
) -> Result<Option<u32>, Refusal>
    ensures found { IfOk result (λ at. at ≡ least_of (plan_broken (map bare_transform transforms.now) (bare_rule r.now))) }
    ensures refused { IfErr result (λ e. e ≡ Memory) }
{
    let outs = plan_views(&r.outs);
    let reads = plan_views(&r.reads);
    let mut known = Known::new(alloc, &r.outs, &r.reads)?;
    let statements = known.statements(transforms, &r.body.stmts)?;
    Ok(least(outs, least(reads, statements)))
}

impl<'a> Known<'a> {
    /// The least place of a fault in a call with these targets; where a function is called, it is `at`.
    #[tactic(auto, using(crate::proofs::LeastLemmas::least_one))]
    fn call(
        &mut self,
        transforms: &[Transform],
        at: u32,
        targets: &[Named],
        called: Called,
        arguments: &[Expr],
    ) -> Option<u32>
        ensures found { result ≡ least_of (call_broken (map bare_transform transforms.now) self.old at targets.now called.at called.what (map bare arguments.now)) }
        ensures left { self.new ≡ made_by called.what self.old targets.now }
    {
        match called.what {
            Callee::Transform(t) => self.transform_call(
                takes(transforms, t),
                gives(transforms, t),
                targets,
                called.at,
                arguments,
            ),
            Callee::Function(_) => Some(at),
        }
    }

    #[tactic(auto, using(crate::proofs::HeldLemmas::items_are))]
    fn assign_call(
        &mut self,
        transforms: &[Transform],
        target: Named,
        called: Called,
        arguments: &[Expr],
    ) -> Option<u32>
        ensures found { result ≡ least_of (call_broken (map bare_transform transforms.now) self.old target.at (target ∷ []) called.at called.what (items (exprs (map bare arguments.now)))) }
        ensures left { self.new ≡ made_by called.what self.old (target ∷ []) }
    {
        self.call(transforms, target.at, &[target], called, arguments)
    }

    #[tactic(auto, unfolding(crate::specs::Least::least_of, crate::specs::Working::assigned_in, crate::specs::Working::made_in))]
    fn assign(&mut self, transforms: &[Transform], target: Named, value: &Expr) -> Option<u32>
        ensures found { result ≡ least_of (assigned_in (map bare_transform transforms.now) self.old target value.now) }
        ensures left { self.new ≡ made_in self.old target value.now }
    {
        match value {
            Expr::Call { called, arguments } => {
                self.assign_call(transforms, target, *called, arguments)
            }
            _ => Some(target.at),
        }
    }

    /// The least place of a fault in a statement of a plan.
    #[tactic(auto, unfolding(crate::specs::Least::least_of, crate::specs::Working::step_in, crate::specs::Working::after_in, crate::specs::Working::assigned_in, crate::specs::Working::made_in))]
    fn statement(&mut self, transforms: &[Transform], s: &Stmt) -> Result<Option<u32>, Refusal>
        ensures found { IfOk result (λ at. at ≡ least_of (step_in (map bare_transform transforms.now) self.old s.now)) }
        ensures left { OnOk result (self.new ≡ after_in self.old s.now) }
        ensures refused { IfErr result (λ e. e ≡ Memory) }
    {
        match s {
            Stmt::Let { at, name, .. } => {
                self.declare(Target {
                    at: name.at,
                    dims: None,
                    made: true,
                })?;
                Ok(Some(*at))
            }
            Stmt::LetMatrix {
                name,
                dims: sides,
                ..
            } => {
                self.declare(Target {
                    at: name.at,
                    dims: Some(sides.len()),
                    made: false,
                })?;
                Ok(dims(sides))
            }
            Stmt::Assign { target, value } => Ok(self.assign(transforms, *target, value)),
            Stmt::Call {
                targets,
                called,
                arguments,
            } => Ok(self.call(transforms, called.at, targets, *called, arguments)),
            Stmt::AssignCell { target, .. } => Ok(Some(target.at)),
            Stmt::If { at, .. } => Ok(Some(*at)),
            Stmt::For { at, .. } => Ok(Some(*at)),
        }
    }

    /// The least place of a fault in the statements of a plan, or of what they don't make.
    #[tactic(auto, using(crate::proofs::PlanLemmas::steps_next, crate::proofs::PlanLemmas::steps_end))]
    fn statements(&mut self, transforms: &[Transform], ss: &[Stmt]) -> Result<Option<u32>, Refusal>
        ensures found { IfOk result (λ at. at ≡ least_of (steps_in (map bare_transform transforms.now) self.old ss.now)) }
        ensures refused { IfErr result (λ e. e ≡ Memory) }
    {
        let mut found = None;
        for next in ss {
            found = least(found, self.statement(transforms, next)?);
        }
        Ok(least(found, self.never_made()))
    }
}

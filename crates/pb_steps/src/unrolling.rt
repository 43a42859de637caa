ghost use Rattle.std.specs.Prelude.{◌≡◌, ◌≤◌, ◌<◌, ◌++◌, [], ℕ, List, IsTrue, IfOk, IfSome, IfNone, OnOk, Some, drop, length, map, slice_get};
ghost use Rattle.std.specs.List.{All};
ghost use Rattle.pb_linear.specs.Sizes.{sizes_of};
ghost use Rattle.pb_frame.specs.Frames.{JobValue};
ghost use Rattle.pb_plan.specs.Boxes.{whole_box};
ghost use Rattle.pb_program.specs.Configs.{IsValid};
ghost use Rattle.pb_program.specs.Forms.{DeclValue};
ghost use Rattle.pb_program.specs.Trees.{ProgRule, bare_prog, bare_rule, bare_transform};
ghost use Rattle.pb_program.specs.declared.rule.RuleKind.TheVariants as kind;
ghost use Rattle.pb_model.specs.Equations.{trap_of};
ghost use Rattle.pb_recursion.specs.Plans.{calls_of_rule, no_cell};
ghost use Rattle.pb_recursion.specs.Shapes.{can_enter as enters, sizes_from};
ghost use Rattle.pb_counts.specs.Callable.{IsCallable};
ghost use Rattle.pb_views.specs.Seats.{IsSmall, sides_of_seat};
ghost use Rattle.pb_counts.specs.Handed.{Instance as RunInstance};
ghost use Rattle.pb_counts.specs.Handed.{after_matrices, deeper_unroll, job_done, jobs_done, nothing_met, own_sides, plan_done, played, seats_from, unroll, unrolled_by, unrolled_run};
ghost use Rattle.pb_steps.specs.Stands.{AreSeated, AreSmall, AreSteps, Goes, GoesBy, GoesByCall, GoesByPlay, IsEnteredAs, IsInstance, IsJobAt, met_of};
ghost use Rattle.pb_steps.specs.Rules.{HasJob, IsOf, IsPlanAt, IsPlanRule, IsStepAlone};
ghost use Rattle.pb_steps.specs.Values.{InstanceValue};

use crate::copies::add_copies;
use crate::failed::fail_call;
use crate::instance::Instance;
use crate::met::{Met, numbered};
use crate::names::Names;
use crate::seats::{boxes_in, sides_of_decls, sides_of_seats, view_seats};
use crate::step::Step;
use pb_check::Accepted;
use pb_counts::{bind, can_enter, sizes_of_call};
use pb_frame::frame;
use pb_linear::{SIZE_TOP, Sizes};
use pb_links::Spot;
use pb_program::{Config, PlanCall, Rule, RuleKind, Transform};
use pb_values::{Kind, Trap};
use pb_views::Seat;
use std::alloc::{AllocError, Global};
use std::marker::Model;

/// The instances of a run, its steps, and what is met.
#[derive(Drop)]
pub struct Unrolled {
    pub instances: Vec<Instance>,
    pub steps: Vec<Step>,
    pub met: Met,
}

impl Model for Unrolled {
    ghost use Rattle.pb_steps.specs.Runs.{UnrolledValue};

    ghost Value = { UnrolledValue };

    ghost view = { λ u. record { instances = u.instances.items; steps = u.steps.items; met = u.met } };
}

/// The trap of a call of a plan, whose outputs are these rectangles: it stands at the lowest corner of the first.
fn trap_of(t: u32, rule: u32, outs: &[Spot], why: Kind) -> Trap
    ensures { (matrices : List DeclValue) (sizes : List ℕ) (r : ProgRule) → r.kind ≡ kind.Plan → outs.now ≡ map (whole_box matrices sizes) r.outs → result ≡ trap_of matrices sizes no_cell t rule r why }
{
    let (x, y) = match outs.first() {
        Some(out) => (out.rect.x0, out.rect.y0),
        None => (0, 0),
    };
    Trap {
        kind: why,
        transform: t,
        rule,
        x,
        y,
    }
}

/// The calls of a rule.
fn calls_of(rule: &Rule) -> &[PlanCall]
    ensures { result.now ≡ calls_of_rule (bare_rule rule.now) }
{
    match &rule.body.plan {
        Some(plan) => &plan.calls,
        None => &[],
    }
}

/// The number of the plan, if the rule with this number is one.
fn plan_of(t: &Transform, rule: Option<u32>) -> Option<u32>
    ensures some { IfSome result (λ k. (rule ≡ Some k) × IsPlanRule t.now k) }
    ensures none { IfNone result (IsStepAlone t.now rule) }
{
    let k = rule?;
    match t.rules.get(k as usize)?.kind {
        RuleKind::Plan => Some(k),
        RuleKind::Cell | RuleKind::Wide => None,
    }
}

/// All but so many of the first.
fn without_first(alloc: Global, seats: &[Seat], count: u32) -> Result<Vec<Seat>, AllocError>
    ensures seats { IfOk result (λ rest. rest.items ≡ drop count seats.now) }
    ensures small { IfOk result (λ rest. All IsSmall seats.now → All IsSmall rest.items) }
{
    Ok(seats[(count as usize).min(seats.len())..].to_vec(alloc)?)
}

/// Seats, and then others.
fn joined(mut seats: Vec<Seat>, others: &[Seat]) -> Result<Vec<Seat>, AllocError>
    ensures { IfOk result (λ all. all.items ≡ seats.items ++ others.now) }
{
    for seat in others {
        seats.push(*seat)?;
    }
    Ok(seats)
}

/// The sizes that matrices bind which stand so and are given to a transform. They fit it: so its caller has seen.
fn sized(alloc: Global, t: &Transform, given: &[Seat]) -> Result<Sizes, AllocError>
    requires transform { IsCallable (bare_transform t.now) }
    requires small { All IsSmall given.now }
    ensures sizes { IfOk result (λ s. sizes_of s ≡ sizes_from (bare_transform t.now) (map sides_of_seat given.now)) }
    ensures enters { IfOk result (λ s. IsTrue (enters (bare_transform t.now) (map sides_of_seat given.now))) }
{
    let sides = sides_of_seats(alloc, given)?;
    if !can_enter(t, &sides) {
        return Err(AllocError);
    }
    Ok(bind(t, &sides))
}

/// Meets the matrices of an instance that aren't given to it.
fn own_seats(
    alloc: Global,
    met: &mut Met,
    t: &Transform,
    s: &Sizes,
) -> Result<Vec<Seat>, AllocError>
    requires sizes { All (λ size. size ≤ SIZE_TOP) s.now.of }
    requires inputs { t.now.inputs ≤ length t.now.matrices }
    ensures seats { IfOk result (λ seats. seats.items ≡ seats_from (met_of met.old) (own_sides (bare_transform t.now) (sizes_of s.now))) }
    ensures small { IfOk result (λ seats. All IsSmall seats.items) }
    ensures met { OnOk result (met_of met.new ≡ after_matrices (met_of met.old) (own_sides (bare_transform t.now) (sizes_of s.now))) }
{
    let matrices = &t.matrices;
    let sides = sides_of_decls(alloc, &matrices[t.inputs as usize..], s)?;
    met.meet_matrices(alloc, &sides)
}

impl Unrolled {
    /// Before a run.
    fn nothing(alloc: Global) -> Unrolled
        ensures instances { result.instances ≡ [] }
        ensures steps { result.steps ≡ [] }
        ensures met { met_of result.met ≡ nothing_met }
    {
        Unrolled {
            instances: Vec::new(alloc),
            steps: Vec::new(alloc),
            met: Met::nothing(),
        }
    }

    /// Adds an instance of transform `t`, where what is given stands there. Answers its number, and where its own matrices stand.
    fn enter(
        &mut self,
        alloc: Global,
        a: &Accepted,
        c: &Config,
        grain: u64,
        t: u32,
        given: Vec<Seat>,
    ) -> Result<(u32, Vec<Seat>), AllocError>
        requires valid { IsValid (bare_prog a.now.program) c.now }
        requires there { t < length (bare_prog a.now.program) }
        requires given { All IsSmall given.items }
        requires seated { AreSeated a.now c.now grain self.old.instances }
        ensures own { IfOk result (λ r. All IsSmall r.1.items) }
        ensures entered { IfOk result (λ r. IsEnteredAs a.now c.now grain t given.items self.old self.new r.0 r.1.items) }
        ensures seated { OnOk result (AreSeated a.now c.now grain self.new.instances) }
    {
        let transform = &a.prog().transforms[t as usize];
        let sizes = sized(alloc, transform, &given)?;
        let call = self.met.meet_call()?;
        let own = own_seats(alloc, &mut self.met, transform, &sizes)?;
        let seats = joined(given, &own)?;
        let jobs = frame(alloc, a, c, t, &sizes, grain)?.jobs;
        let number = numbered(self.instances.len())?;
        let _ = numbered(jobs.len())?;
        self.instances.push(Instance {
            call,
            transform: t,
            sizes,
            seats,
            jobs,
        })?;
        Ok((number, own))
    }

    /// A call of transform `t` and all calls below it, where what is given stands there. Answers where its own matrices stand.
    #[cycle(calls)]
    fn call(
        &mut self,
        alloc: Global,
        a: &Accepted,
        c: &Config,
        grain: u64,
        depth: u32,
        t: u32,
        given: Vec<Seat>,
    ) -> Result<Vec<Seat>, AllocError>
        requires valid { IsValid (bare_prog a.now.program) c.now }
        requires there { t < length (bare_prog a.now.program) }
        requires given { All IsSmall given.items }
        requires seated { AreSeated a.now c.now grain self.old.instances }
        ensures seats { IfOk result (λ seats. seats.items ≡ (unroll (bare_prog a.now.program) a.now.found c.now grain depth t given.items (met_of self.old.met)).seats) }
        ensures small { IfOk result (λ seats. All IsSmall seats.items) }
        ensures goes { OnOk result (Goes a.now c.now grain self.old self.new (unroll (bare_prog a.now.program) a.now.found c.now grain depth t given.items (met_of self.old.met)).steps (unroll (bare_prog a.now.program) a.now.found c.now grain depth t given.items (met_of self.old.met)).next) }
        ensures seated { OnOk result (AreSeated a.now c.now grain self.new.instances) }
    {
        let (number, own) = self.enter(alloc, a, c, grain, t, given)?;
        self.jobs(alloc, a, c, grain, depth, number)?;
        Ok(own)
    }

    /// The jobs of an instance, one after the other.
    #[cycle(calls)]
    fn jobs(
        &mut self,
        alloc: Global,
        a: &Accepted,
        c: &Config,
        grain: u64,
        depth: u32,
        instance: u32,
    ) -> Result<(), AllocError>
        requires valid { IsValid (bare_prog a.now.program) c.now }
        requires there { instance < length self.old.instances }
        requires seated { AreSeated a.now c.now grain self.old.instances }
        ensures goes { OnOk result ((v : InstanceValue) (i : RunInstance) → slice_get self.old.instances instance ≡ Some v → IsInstance (bare_prog a.now.program) a.now.found v i
            → GoesBy a.now c.now grain self.old self.new (jobs_done (bare_prog a.now.program) (deeper_unroll (bare_prog a.now.program) a.now.found c.now grain depth) i v.jobs (met_of self.old.met))) }
        ensures seated { OnOk result (AreSeated a.now c.now grain self.new.instances) }
    {
        let here = &self.instances[instance as usize];
        let count = here.jobs.len();
        for job in 0..count as u32 {
            self.job(alloc, a, c, grain, depth, instance, job)?;
        }
        Ok(())
    }

    /// A job of an instance: a step, or the calls and the copies of its plan.
    #[cycle(calls)]
    fn job(
        &mut self,
        alloc: Global,
        a: &Accepted,
        c: &Config,
        grain: u64,
        depth: u32,
        instance: u32,
        job: u32,
    ) -> Result<(), AllocError>
        requires valid { IsValid (bare_prog a.now.program) c.now }
        requires there { HasJob self.old.instances instance job }
        requires seated { AreSeated a.now c.now grain self.old.instances }
        ensures goes { OnOk result ((i : RunInstance) (j : JobValue) → IsJobAt (bare_prog a.now.program) a.now.found self.old.instances instance job i j
            → GoesBy a.now c.now grain self.old self.new (job_done (bare_prog a.now.program) (deeper_unroll (bare_prog a.now.program) a.now.found c.now grain depth) i j.rule j (met_of self.old.met))) }
        ensures seated { OnOk result (AreSeated a.now c.now grain self.new.instances) }
    {
        let here = &self.instances[instance as usize];
        let transform = &a.prog().transforms[here.transform as usize];
        if let Some(k) = plan_of(transform, here.jobs[job as usize].rule) {
            return self.plan(alloc, a, c, grain, depth, instance, job, k);
        }
        self.steps.push(Step::Job { instance, job })?;
        Ok(())
    }

    /// The plan of this number, which is the rule of a job: its calls, and then its copies.
    #[cycle(calls)]
    fn plan(
        &mut self,
        alloc: Global,
        a: &Accepted,
        c: &Config,
        grain: u64,
        depth: u32,
        instance: u32,
        job: u32,
        k: u32,
    ) -> Result<(), AllocError>
        requires valid { IsValid (bare_prog a.now.program) c.now }
        requires there { IsPlanAt (bare_prog a.now.program) self.old.instances instance job k }
        requires seated { AreSeated a.now c.now grain self.old.instances }
        ensures goes { OnOk result ((i : RunInstance) (j : JobValue) (r : ProgRule) → IsJobAt (bare_prog a.now.program) a.now.found self.old.instances instance job i j → slice_get i.transform.rules k ≡ Some r
            → GoesBy a.now c.now grain self.old self.new (plan_done (bare_prog a.now.program) (deeper_unroll (bare_prog a.now.program) a.now.found c.now grain depth) i j k r (met_of self.old.met))) }
        ensures seated { OnOk result (AreSeated a.now c.now grain self.new.instances) }
    {
        let here = &self.instances[instance as usize];
        let (number, s) = (here.transform, here.sizes);
        let transform = &a.prog().transforms[number as usize];
        let rule = &transform.rules[k as usize];
        let reads = view_seats(alloc, transform, here, &rule.reads)?;
        let outs = boxes_in(alloc, transform, here, &rule.outs)?;
        let mut names = Names::of_reads(alloc, &reads)?;
        self.plan_calls(
            alloc, a, c, grain, depth, transform, rule, number, k, &s, &outs, &mut names,
        )?;
        let nodes = a.analyses()[number as usize].nodes();
        let here = &self.instances[instance as usize];
        let parts = &here.jobs[job as usize].parts;
        add_copies(
            alloc,
            &mut self.steps,
            nodes,
            &outs,
            parts,
            &names,
            instance,
            job,
        )
    }

    /// The calls of a plan, one after the other, with the names that they give.
    #[cycle(calls)]
    fn plan_calls(
        &mut self,
        alloc: Global,
        a: &Accepted,
        c: &Config,
        grain: u64,
        depth: u32,
        t: &Transform,
        rule: &Rule,
        number: u32,
        k: u32,
        s: &Sizes,
        outs: &[Spot],
        names: &mut Names,
    ) -> Result<(), AllocError>
        requires valid { IsValid (bare_prog a.now.program) c.now }
        requires sizes { All (λ size. size ≤ SIZE_TOP) s.now.of }
        requires plan { rule.now.kind ≡ kind.Plan }
        requires small { AreSmall names.old }
        requires seated { AreSeated a.now c.now grain self.old.instances }
        ensures names { OnOk result ((i : RunInstance) → IsOf number t.now s.now rule.now outs.now i
            → names.new ≡ (played (unrolled_by (bare_prog a.now.program) i k (bare_rule rule.now) (deeper_unroll (bare_prog a.now.program) a.now.found c.now grain depth)) (calls_of_rule (bare_rule rule.now)) names.old (met_of self.old.met)).names) }
        ensures small { OnOk result (AreSmall names.new) }
        ensures goes { OnOk result ((i : RunInstance) → IsOf number t.now s.now rule.now outs.now i
            → GoesByPlay a.now c.now grain self.old self.new (played (unrolled_by (bare_prog a.now.program) i k (bare_rule rule.now) (deeper_unroll (bare_prog a.now.program) a.now.found c.now grain depth)) (calls_of_rule (bare_rule rule.now)) names.old (met_of self.old.met))) }
        ensures seated { OnOk result (AreSeated a.now c.now grain self.new.instances) }
    {
        for call in calls_of(rule) {
            let given = names.all_named(alloc, &call.arguments)?;
            let made = self.plan_call(
                alloc, a, c, grain, depth, t, rule, number, k, s, outs, call, given,
            )?;
            names.give(&call.targets, &made)?;
        }
        Ok(())
    }

    /// A call of a plan: where the matrices of its targets stand.
    #[cycle(calls)]
    fn plan_call(
        &mut self,
        alloc: Global,
        a: &Accepted,
        c: &Config,
        grain: u64,
        depth: u32,
        t: &Transform,
        rule: &Rule,
        number: u32,
        k: u32,
        s: &Sizes,
        outs: &[Spot],
        call: &PlanCall,
        given: Vec<Seat>,
    ) -> Result<Vec<Seat>, AllocError>
        requires valid { IsValid (bare_prog a.now.program) c.now }
        requires sizes { All (λ size. size ≤ SIZE_TOP) s.now.of }
        requires plan { rule.now.kind ≡ kind.Plan }
        requires given { All IsSmall given.items }
        requires seated { AreSeated a.now c.now grain self.old.instances }
        ensures seats { IfOk result (λ seats. (i : RunInstance) → IsOf number t.now s.now rule.now outs.now i
            → seats.items ≡ (unrolled_by (bare_prog a.now.program) i k (bare_rule rule.now) (deeper_unroll (bare_prog a.now.program) a.now.found c.now grain depth) call.now given.items (met_of self.old.met)).seats) }
        ensures small { IfOk result (λ seats. All IsSmall seats.items) }
        ensures goes { OnOk result ((i : RunInstance) → IsOf number t.now s.now rule.now outs.now i
            → GoesByCall a.now c.now grain self.old self.new (unrolled_by (bare_prog a.now.program) i k (bare_rule rule.now) (deeper_unroll (bare_prog a.now.program) a.now.found c.now grain depth) call.now given.items (met_of self.old.met))) }
        ensures seated { OnOk result (AreSeated a.now c.now grain self.new.instances) }
    {
        if depth == 0 {
            let trap = trap_of(number, k, outs, Kind::DepthEnded);
            return fail_call(
                alloc,
                &mut self.steps,
                &mut self.met,
                t,
                rule,
                call,
                s,
                trap,
            );
        }
        if sizes_of_call(alloc, a.prog(), t, rule, call, s)?.is_none() {
            let trap = trap_of(number, k, outs, Kind::BadShape);
            return fail_call(
                alloc,
                &mut self.steps,
                &mut self.met,
                t,
                rule,
                call,
                s,
                trap,
            );
        }
        let own = self.call(alloc, a, c, grain, depth - 1, call.transform, given)?;
        let called = &a.prog().transforms[call.transform as usize];
        without_first(alloc, &own, called.middles)
    }
}

/// The run of transform `t` where a valid configuration chooses and plans may call `depth` deep, from matrices of these sides, which
/// can be given to it. `grain` is the least side of a block. Nothing is made for sides above `MOST_SIDE` or cells above `MOST_CELLS`:
/// then it is refused as if memory had run out, so the counts of the run are to be looked at before.
pub fn unroll(
    alloc: Global,
    a: &Accepted,
    c: &Config,
    depth: u32,
    t: u32,
    given: &[(i64, i64)],
    grain: u64,
) -> Result<Unrolled, AllocError>
    requires valid { IsValid (bare_prog a.now.program) c.now }
    requires there { t < length (bare_prog a.now.program) }
    ensures steps { IfOk result (λ u. AreSteps (bare_prog a.now.program) a.now.found u (unrolled_run (bare_prog a.now.program) a.now.found c.now grain depth t given.now).steps) }
    ensures met { IfOk result (λ u. met_of u.met ≡ (unrolled_run (bare_prog a.now.program) a.now.found c.now grain depth t given.now).next) }
    ensures seated { IfOk result (λ u. AreSeated a.now c.now grain u.instances) }
{
    let mut run = Unrolled::nothing(alloc);
    let seats = run.met.meet_matrices(alloc, given)?;
    run.call(alloc, a, c, grain, depth, t, seats)?;
    Ok(run)
}

ghost use Rattle.std.specs.Prelude.{◌≡◌, ◌≤◌, IfOk, OnOk, if◌then◌else◌, None, map};
ghost use Rattle.std.specs.List.{All};
ghost use Rattle.std.specs.Option.{option_map};
ghost use Rattle.pb_linear.specs.Sizes.{InRange, leasts_of, sizes_of};
ghost use Rattle.pb_program.specs.Configs.{IsValid};
ghost use Rattle.pb_program.specs.Trees.{bare_prog, bare_rule, bare_transform};
ghost use Rattle.pb_check.specs.Ranked.{OfTransform};
ghost use Rattle.pb_frame.specs.Frames.{JobValue};
ghost use Rattle.pb_recursion.specs.Counts.{all_of, call_count, instance_count};
ghost use Rattle.pb_counts.specs.Callable.{IsCallable};
ghost use Rattle.pb_counts.specs.Entered.{sizes_of_call};
ghost use Rattle.pb_counts.specs.Tallies.{capped};
ghost use Rattle.pb_runs.specs.Tallied.{job_tally};
ghost use Rattle.pb_counts.specs.Gathered.{CanCome, IsMore, whole};
ghost use Rattle.pb_counts.specs.Sized.{Sized, counter_of};

use crate::failed::failed_call;
use crate::fitted::sizes_of_call;
use crate::gathered::{Entered, Gathered};
use crate::matrices::own_count;
use pb_check::Accepted;
use pb_frame::{Job, frame};
use pb_linear::{SIZE_TOP, Sizes};
use pb_program::{Config, PlanCall, Prog, Rule, RuleKind, Transform};
use std::alloc::{AllocError, Global};

/// The grain of the frame in which the chosen plans are looked up. No plan depends on it.
const GRAIN: u64 = 64;

/// The sizes at which a call is entered that can be made, where plans can call.
fn entered(
    alloc: Global,
    prog: &Prog,
    t: &Transform,
    rule: &Rule,
    call: &PlanCall,
    s: &Sizes,
    deep: bool,
) -> Result<Option<Sizes>, AllocError>
    requires sizes { All (λ size. size ≤ SIZE_TOP) s.now.of }
    requires program { All IsCallable (bare_prog prog.now) }
    ensures { IfOk result (λ entered. option_map sizes_of entered ≡ (if deep then sizes_of_call t.now.matrices (sizes_of s.now) (bare_prog prog.now) (bare_rule rule.now) call.now else None)) }
{
    if !deep {
        return Ok(None);
    }
    sizes_of_call(alloc, prog, t, rule, call, s)
}

/// Gathers a call of a plan.
fn add_call(
    alloc: Global,
    g: &mut Gathered,
    prog: &Prog,
    t: &Transform,
    rule: &Rule,
    call: &PlanCall,
    s: &Sizes,
    deep: bool,
) -> Result<(), AllocError>
    requires sizes { All (λ size. size ≤ SIZE_TOP) s.now.of }
    requires program { All IsCallable (bare_prog prog.now) }
    ensures more { OnOk result (IsMore (bare_prog prog.now) deep g.old g.new (λ deeper. call_count (bare_prog prog.now) (bare_transform t.now) (sizes_of s.now) deeper (bare_rule rule.now) call.now)) }
    ensures next { OnOk result (All (CanCome (bare_prog prog.now)) g.old.next → All (CanCome (bare_prog prog.now)) g.new.next) }
{
    match entered(alloc, prog, t, rule, call, s, deep)? {
        Some(sizes) => g.next.push(Entered {
            transform: call.transform,
            sizes,
        })?,
        None => g.tally = g.tally.both(failed_call(t, rule, call, s)),
    }
    Ok(())
}

/// Gathers the calls of a plan, one after the other.
fn add_calls(
    alloc: Global,
    g: &mut Gathered,
    prog: &Prog,
    t: &Transform,
    rule: &Rule,
    calls: &[PlanCall],
    s: &Sizes,
    deep: bool,
) -> Result<(), AllocError>
    requires sizes { All (λ size. size ≤ SIZE_TOP) s.now.of }
    requires program { All IsCallable (bare_prog prog.now) }
    ensures more { OnOk result (IsMore (bare_prog prog.now) deep g.old g.new (λ deeper. all_of (map (call_count (bare_prog prog.now) (bare_transform t.now) (sizes_of s.now) deeper (bare_rule rule.now)) calls.now))) }
    ensures next { OnOk result (All (CanCome (bare_prog prog.now)) g.old.next → All (CanCome (bare_prog prog.now)) g.new.next) }
{
    for call in calls {
        add_call(alloc, g, prog, t, rule, call, s, deep)?;
    }
    Ok(())
}

/// Gathers the plan of a job, if it has one.
fn add_job(
    alloc: Global,
    g: &mut Gathered,
    prog: &Prog,
    t: &Transform,
    job: &Job,
    s: &Sizes,
    deep: bool,
) -> Result<(), AllocError>
    requires sizes { All (λ size. size ≤ SIZE_TOP) s.now.of }
    requires program { All IsCallable (bare_prog prog.now) }
    ensures more { OnOk result (IsMore (bare_prog prog.now) deep g.old g.new (λ deeper. job_tally (bare_prog prog.now) (bare_transform t.now) (sizes_of s.now) deeper job.now.rule)) }
    ensures next { OnOk result (All (CanCome (bare_prog prog.now)) g.old.next → All (CanCome (bare_prog prog.now)) g.new.next) }
{
    let Some(number) = job.rule else {
        return Ok(());
    };
    let Some(rule) = t.rules.get(number as usize) else {
        return Ok(());
    };
    let RuleKind::Plan = rule.kind else {
        return Ok(());
    };
    let Some(plan) = &rule.body.plan else {
        return Ok(());
    };
    add_calls(alloc, g, prog, t, rule, &plan.calls, s, deep)
}

/// Gathers the plans of all jobs.
fn add_jobs(
    alloc: Global,
    g: &mut Gathered,
    prog: &Prog,
    t: &Transform,
    jobs: &[Job],
    s: &Sizes,
    deep: bool,
) -> Result<(), AllocError>
    requires sizes { All (λ size. size ≤ SIZE_TOP) s.now.of }
    requires program { All IsCallable (bare_prog prog.now) }
    ensures more { OnOk result (IsMore (bare_prog prog.now) deep g.old g.new (λ deeper. all_of (map (λ (job : JobValue). job_tally (bare_prog prog.now) (bare_transform t.now) (sizes_of s.now) deeper job.rule) jobs.now))) }
    ensures next { OnOk result (All (CanCome (bare_prog prog.now)) g.old.next → All (CanCome (bare_prog prog.now)) g.new.next) }
{
    for job in jobs {
        add_job(alloc, g, prog, t, job, s, deep)?;
    }
    Ok(())
}

/// What an instance of transform `t` counts, at sizes in range, where a valid configuration chooses: itself, its matrices and the
/// calls of its chosen plans that can't be made; and the calls that are made, still to be counted. `deep` says whether plans can call.
pub(crate) fn gather(
    alloc: Global,
    a: &Accepted,
    c: &Config,
    t: u32,
    s: &Sizes,
    deep: bool,
) -> Result<Gathered, AllocError>
    requires valid { IsValid (bare_prog a.now.program) c.now }
    requires sizes { OfTransform a.now t (λ transform found. InRange (leasts_of transform.ranges) (sizes_of s.now)) }
    ensures whole { IfOk result (λ g. OfTransform a.now t (λ transform found. (f : Sized) → capped (whole f g) ≡ capped (instance_count (bare_prog a.now.program) c.now (counter_of (bare_prog a.now.program) deep f) t transform (sizes_of s.now)))) }
    ensures next { IfOk result (λ g. All (CanCome (bare_prog a.now.program)) g.next) }
{
    let prog = a.prog();
    let transform = &prog.transforms[t as usize];
    let frame = frame(alloc, a, c, t, s, GRAIN)?;
    let mut g = Gathered {
        tally: own_count(transform, s),
        next: Vec::new(alloc),
    };
    add_jobs(alloc, &mut g, prog, transform, &frame.jobs, s, deep)?;
    Ok(g)
}

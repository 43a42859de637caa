ghost use Rattle.std.specs.Prelude.{◌≡◌, ◌≤◌, ◌<◌, ◌+◌, IfNone, IfOk, IfSome, OnOk};
ghost use Rattle.std.specs.List.{All};
ghost use Rattle.pb_linear.specs.Sizes.{InRange, leasts_of, sizes_of};
ghost use Rattle.pb_program.specs.Configs.{IsValid};
ghost use Rattle.pb_program.specs.Trees.{bare_prog};
ghost use Rattle.pb_check.specs.Ranked.{OfTransform};
ghost use Rattle.pb_counts.specs.Gathered.{CanCome, rest_count};
ghost use Rattle.pb_counts.specs.Memos.{AreKnown};
ghost use Rattle.pb_counts.specs.Tallies.{counted};
ghost use Rattle.pb_counts.specs.Sized.{sized_count};
ghost use Rattle.pb_counts.specs.Told.{Tells};

use crate::calls::gather;
use crate::gathered::Entered;
use crate::memo::Memo;
use crate::tally::Tally;
use pb_check::Accepted;
use pb_linear::Sizes;
use pb_program::Config;
use std::alloc::{AllocError, Global};

/// The most calls of a run, the first among them.
pub const MOST_CALLS: u64 = 16_384;

/// A tally, unless with so many calls before it there are more than a run may have.
fn told(tally: Tally, before: u64) -> Option<Tally>
    requires { before ≤ MOST_CALLS }
    ensures some { IfSome result (λ t. (t ≡ tally) × (before + t.calls ≤ MOST_CALLS)) }
    ensures none { IfNone result (MOST_CALLS < before + tally.calls) }
{
    if tally.calls > MOST_CALLS - before {
        return None;
    }
    Some(tally)
}

/// What is gathered by an instance counts with the calls to come, where `before` calls are counted already and its plans may call `depth`
/// deeper; none where with those there are more calls than a run may have.
#[cycle(counts)]
fn rest(
    alloc: Global,
    a: &Accepted,
    c: &Config,
    known: &mut Memo,
    depth: u32,
    own: Tally,
    next: &[Entered],
    before: u64,
) -> Result<Option<Tally>, AllocError>
    requires valid { IsValid (bare_prog a.now.program) c.now }
    requires next { All (CanCome (bare_prog a.now.program)) next.now }
    requires before { before + own.calls ≤ MOST_CALLS }
    requires known { AreKnown (bare_prog a.now.program) c.now known.old }
    ensures told { IfOk result (Tells before (rest_count (bare_prog a.now.program) c.now depth (counted own) next.now)) }
    ensures known { OnOk result (AreKnown (bare_prog a.now.program) c.now known.new) }
{
    if depth == 0 {
        return Ok(Some(own));
    }
    // What is known of the program is told with it.
    let _ = a.prog();
    let mut tally = own;
    for entered in next {
        let Some(one) = count(
            alloc,
            a,
            c,
            known,
            depth - 1,
            entered.transform,
            &entered.sizes,
            before + tally.calls,
        )?
        else {
            return Ok(None);
        };
        tally = tally.both(one);
    }
    Ok(Some(tally))
}

/// What a call of transform `t` counts, at sizes in range, where `before` calls are counted already and plans may call `depth` deeper;
/// none where with those there are more calls than a run may have.
#[cycle(counts)]
pub(crate) fn count(
    alloc: Global,
    a: &Accepted,
    c: &Config,
    known: &mut Memo,
    depth: u32,
    t: u32,
    s: &Sizes,
    before: u64,
) -> Result<Option<Tally>, AllocError>
    requires valid { IsValid (bare_prog a.now.program) c.now }
    requires sizes { OfTransform a.now t (λ transform found. InRange (leasts_of transform.ranges) (sizes_of s.now)) }
    requires before { before ≤ MOST_CALLS }
    requires known { AreKnown (bare_prog a.now.program) c.now known.old }
    ensures told { IfOk result (Tells before (sized_count (bare_prog a.now.program) c.now depth t (sizes_of s.now))) }
    ensures known { OnOk result (AreKnown (bare_prog a.now.program) c.now known.new) }
{
    if let Some(tally) = known.find(depth, t, s) {
        return Ok(told(tally, before));
    }
    let gathered = gather(alloc, a, c, t, s, depth > 0)?;
    let Some(own) = told(gathered.tally, before) else {
        return Ok(None);
    };
    let Some(tally) = rest(alloc, a, c, known, depth, own, &gathered.next, before)? else {
        return Ok(None);
    };
    known.add(depth, t, s, tally)?;
    Ok(Some(tally))
}

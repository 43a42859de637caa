ghost use Rattle.std.specs.Prelude.{◌≡◌, ◌≤◌, ◌^◌, ◌-◌, ℕ, min};
ghost use Rattle.std.specs.List.{All};
ghost use Rattle.pb_linear.specs.Sizes.{sizes_of};
ghost use Rattle.pb_program.specs.Trees.{bare_prog};
ghost use Rattle.pb_eval.specs.CanRun.{at_variables, IsRunnable, locals_needed, OfRule, outs_needed};
ghost use Rattle.pb_statements.specs.Rooms.{local_room};
ghost use Rattle.pb_statements.specs.Working.{room_in, rooms_in};

use crate::place::{body_of_rule, matrices_of, outs_of_rule, rule_at, transform_at};
use pb_linear::{SIZE_TOP, Sizes};
use pb_program::{Meaning, Prog, Stmt};
use pb_statements::view_sides;

/// How many locals there have to be for this one to be assigned.
fn local_room(what: Meaning) -> u64
    ensures { result ≡ local_room what }
{
    match what {
        Meaning::Number(k) => u64::from(k) + 1,
        _ => 0,
    }
}

/// How many locals a statement needs.
#[cycle(room)]
#[tactic(auto, using(pb_statements::proofs::StmtLemmas::let_room, pb_statements::proofs::StmtLemmas::assign_room, pb_statements::proofs::StmtLemmas::for_room, crate::proofs::RoomLemmas::matrix_room, crate::proofs::RoomLemmas::call_room, crate::proofs::RoomLemmas::cell_room, crate::proofs::RoomLemmas::if_room, crate::proofs::RoomLemmas::if_else_room))]
fn room(s: &Stmt) -> u64
    ensures { result ≡ room_in s.now }
{
    match s {
        Stmt::Let { name, .. } => local_room(name.what),
        Stmt::LetMatrix { .. } => 0,
        Stmt::Assign { target, .. } => local_room(target.what),
        Stmt::Call { .. } => 0,
        Stmt::AssignCell { .. } => 0,
        Stmt::If {
            then,
            otherwise,
            ..
        } => match otherwise {
            Some(otherwise) => rooms(then).max(rooms(otherwise)),
            None => rooms(then),
        },
        Stmt::For { name, body, .. } => local_room(name.what).max(rooms(body)),
    }
}

/// How many locals statements need.
#[cycle(room)]
#[tactic(auto, using(crate::proofs::RoomLemmas::rooms_next, crate::proofs::RoomLemmas::rooms_end))]
fn rooms(ss: &[Stmt]) -> u64
    ensures { result ≡ rooms_in ss.now }
{
    let mut found: u64 = 0;
    for next in ss {
        found = found.max(room(next));
    }
    found
}

/// How many locals a rule needs.
pub fn locals_room(p: &Prog, t: u32, r: u32) -> u64
    ensures { OfRule (bare_prog p.now) t r (λ transform rule. result ≡ locals_needed rule) }
{
    let Some(transform) = transform_at(p, t) else {
        return 0;
    };
    let Some(rule) = rule_at(transform, r) else {
        return 0;
    };
    rooms(body_of_rule(rule))
}

/// How many numbers the outputs of a computing rule have at sizes of at most `SIZE_TOP`, up to 2^64 - 1. The rule variables play
/// no part.
pub fn outs_room(p: &Prog, t: u32, r: u32, s: &Sizes) -> u64
    requires sizes { All (λ size. size ≤ SIZE_TOP) s.now.of }
    requires runnable { OfRule (bare_prog p.now) t r (λ transform rule. IsRunnable transform.matrices rule) }
    ensures { OfRule (bare_prog p.now) t r (λ transform rule. (x y : ℕ) → result ≡ min (2 ^ 64 - 1) (outs_needed transform.matrices (sizes_of s.now) (at_variables x y) rule)) }
{
    let Some(transform) = transform_at(p, t) else {
        return 0;
    };
    let Some(rule) = rule_at(transform, r) else {
        return 0;
    };
    let matrices = matrices_of(transform);
    let outs = outs_of_rule(rule);
    let mut total: u64 = 0;
    for out in outs {
        let sides = view_sides(out, &matrices[out.matrix as usize], s);
        total = total.saturating_add(sides.height.saturating_mul(sides.width));
    }
    total
}

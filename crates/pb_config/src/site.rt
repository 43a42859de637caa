ghost use Rattle.std.specs.Prelude.{◌≡◌, ◌<◌, ◌≤◌, IfSome, List, ℕ, MatchOption, None, Some, length, map, slice_get};
ghost use Rattle.std.specs.List.{list_all};
ghost use Rattle.std.specs.Option.{option_and_then, option_map};
ghost use Rattle.pb_program.specs.Configs.{rule_writes, writes};
ghost use Rattle.pb_program.specs.Trees.{bare_rule, bare_transform};
ghost use Rattle.pb_program.specs.WellFormed.{IsWellFormed};
ghost use Rattle.pb_config.specs.Reading.{matrix_named, matrix_of, site_of, transform_named};

use pb_program::{Rule, Transform};
use pb_syntax::MOST_MATRICES;

fn transform_named(name: &[u8], p: &[Transform]) -> Option<usize>
    ensures number { result ≡ transform_named name.now (map bare_transform p.now) }
    ensures within { IfSome result (λ k. k < length p.now) }
{
    for (k, transform) in p.iter().enumerate() {
        if name == transform.name.bytes() {
            return Some(k);
        }
    }
    None
}

fn matrix_named(name: &[u8], t: &Transform) -> Option<usize>
    ensures number { result ≡ matrix_named name.now (bare_transform t.now) }
    ensures within { IfSome result (λ k. k < length t.now.matrices) }
{
    for (k, matrix) in t.matrices.iter().enumerate() {
        if name == matrix.name.bytes() {
            return Some(k);
        }
    }
    None
}

fn writes(matrix: u32, rule: &Rule) -> bool
    ensures { result ≡ writes matrix (bare_rule rule.now) }
{
    for output in &rule.outs {
        if output.matrix == matrix {
            return true;
        }
    }
    false
}

fn rule_writes(t: &Transform, matrix: u32, rule: u32) -> bool
    ensures { result ≡ rule_writes (bare_transform t.now) matrix rule }
{
    match t.rules.get(rule as usize) {
        Some(rule) => writes(matrix, rule),
        None => false,
    }
}

fn all_write(t: &Transform, matrix: u32, set: &[u32]) -> bool
    ensures { result ≡ list_all (rule_writes (bare_transform t.now) matrix) set.now }
{
    for rule in set {
        if !rule_writes(t, matrix, *rule) {
            return false;
        }
    }
    true
}

// The number of the matrix of this name, if it isn't given and each rule of the set is there and writes it.
fn find_matrix(t: &Transform, name: &[u8], set: &[u32]) -> Option<u32>
    requires few { length t.now.matrices ≤ MOST_MATRICES }
    ensures { result ≡ matrix_of name.now set.now (bare_transform t.now) }
{
    let matrix = matrix_named(name, t)? as u32;
    if matrix < t.inputs {
        return None;
    }
    if all_write(t, matrix, set) {
        Some(matrix)
    } else {
        None
    }
}

/// The numbers of the transform and of the matrix, if the matrix isn't given and each rule of the set is there and
/// writes it.
pub(crate) fn find_site(
    p: &[Transform],
    transform: &[u8],
    matrix: &[u8],
    set: &[u32],
) -> Option<(u32, u32)>
    requires well_formed { IsWellFormed (map bare_transform p.now) }
    ensures { MatchOption result (site_of (map bare_transform p.now) (record { transform = transform.now; matrix = matrix.now }) set.now ≡ None)
        (λ r. site_of (map bare_transform p.now) (record { transform = transform.now; matrix = matrix.now }) set.now
        ≡ Some (record { transform = r.0; matrix = r.1; set = set.now })) }
{
    let number = transform_named(transform, p)?;
    let Some(found) = find_matrix(&p[number], matrix, set) else {
        return None;
    };
    Some((number as u32, found))
}

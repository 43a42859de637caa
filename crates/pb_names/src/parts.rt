ghost use Rattle.std.specs.Prelude.{◌≡◌, ◌≤◌, IfOk, length, option_copied};
ghost use Rattle.pb_names.specs.Bodies.{function_of};
ghost use Rattle.pb_syntax.specs.Limits.{alone};
ghost use Rattle.pb_syntax.specs.WithinLimits.{MarkWithin};
ghost use Rattle.pb_names.specs.Rules.{is_single, kind_by, priority_of};
ghost use Rattle.pb_names.specs.Transforms.{count_of, least_at, ranges_of};
ghost use Rattle.pb_names.specs.Views.{is_row, is_size};

use crate::names::Names;
use pb_linear::Ranges;
use pb_program::{Function, Meaning, RuleKind};
use pb_syntax::{FormText, MarkText, UseText, ViewText};
use pb_values::Name;
use std::alloc::{AllocError, Global};

/// The name that a form is, if it is a name alone.
pub fn alone(form: &FormText) -> Option<&Name>
    ensures { option_copied result ≡ alone form.now }
{
    if form.minus {
        return None;
    }
    match form.terms.as_slice() {
        [only] => {
            if only.factor != 1 {
                return None;
            }
            if only.quotient != 0 {
                return None;
            }
            only.name.as_ref()
        }
        _ => None,
    }
}

/// Whether a name names a size.
pub fn is_size(what: Option<Meaning>) -> bool
    ensures { result ≡ is_size what }
{
    match what {
        Some(Meaning::Size(_)) => true,
        _ => false,
    }
}

/// Whether a view is a row or a column.
pub fn is_row(view: &ViewText) -> bool
    ensures { result ≡ is_row view.now }
{
    match view {
        ViewText::Row(_) => true,
        ViewText::Column(_) => true,
        _ => false,
    }
}

/// Whether there is just one output.
pub fn is_single(outs: &[UseText]) -> bool
    ensures { result ≡ is_single outs.now }
{
    match outs {
        [_] => true,
        _ => false,
    }
}

/// The priority of a mark.
pub fn priority_of(mark: MarkText) -> u32
    requires { MarkWithin mark }
    ensures { result ≡ priority_of mark }
{
    match mark {
        MarkText::Unmarked => 0,
        MarkText::Primary => 0,
        MarkText::Secondary => 1,
        MarkText::Priority(k) => k as u32,
    }
}

/// The kind of a rule: a body that calls transforms makes it a plan, else an output that binds rule variables a cell rule.
pub fn kind_by(plan: bool, cell: bool) -> RuleKind
    ensures { result ≡ kind_by plan cell }
{
    if plan {
        return RuleKind::Plan;
    }
    if cell { RuleKind::Cell } else { RuleKind::Wide }
}

/// How many dimensions a matrix has.
pub fn count_of(dims: &[FormText]) -> u8
    ensures { result ≡ count_of dims.now }
{
    match dims {
        [_, _, ..] => 2,
        _ => 1,
    }
}

/// The least value of the k-th size, or 0 where there is none.
pub fn least_at(minimums: &Names<'_, u64>, names: &[Name], k: usize) -> u64
    ensures { result ≡ least_at minimums.now names.now k }
{
    match names.get(k) {
        Some(name) => match minimums.find(name.bytes()) {
            Some(least) => least.max(1),
            None => 1,
        },
        None => 0,
    }
}

/// The ranges of at most 8 sizes.
pub fn ranges(minimums: &Names<'_, u64>, names: &[Name]) -> Ranges
    requires { length names.now ≤ 8 }
    ensures { result ≡ ranges_of minimums.now names.now }
{
    Ranges {
        count: names.len() as u8,
        least: [
            least_at(minimums, names, 0),
            least_at(minimums, names, 1),
            least_at(minimums, names, 2),
            least_at(minimums, names, 3),
            least_at(minimums, names, 4),
            least_at(minimums, names, 5),
            least_at(minimums, names, 6),
            least_at(minimums, names, 7),
        ],
    }
}

/// A copy of a name.
pub fn copy_name(alloc: Global, name: &Name) -> Result<Name, AllocError>
    ensures { IfOk result (λ n. n ≡ name.now) }
{
    Ok(Name::new(name.bytes().to_vec(alloc)?, name.at()))
}

/// The function of this name.
pub fn function_of(name: &[u8]) -> Option<Function>
    ensures { result ≡ function_of name.now }
{
    if name == b"sum".as_slice() {
        return Some(Function::Sum);
    }
    if name == b"dot".as_slice() {
        return Some(Function::Dot);
    }
    if name == b"min".as_slice() {
        return Some(Function::Min);
    }
    if name == b"max".as_slice() {
        return Some(Function::Max);
    }
    if name == b"abs".as_slice() {
        return Some(Function::Abs);
    }
    None
}

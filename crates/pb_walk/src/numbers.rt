ghost use Rattle.std.specs.Prelude.{◌<◌, ◌-◌, IfNone, IfSome};
ghost use Rattle.pb_walk.specs.Axes.{AreThere, moved};
ghost use Rattle.pb_walk.specs.Sweeps.{IsFirst, IsLast, IsLastPair, IsNext, IsNextPair, IsOf};

use pb_linear::Sign;

/// The numbers from `low` to before `high`.
#[derive(Clone, Copy)]
pub(crate) struct Span {
    pub(crate) low: u64,
    pub(crate) high: u64,
}

/// The number of a span after one, in a direction, unless that is the last.
fn next_number(sign: Sign, span: Span, at: u64) -> Option<u64>
    requires { IsOf span at }
    ensures found { IfSome result (λ next. IsNext sign span at next) }
    ensures none { IfNone result (IsLast sign span at) }
{
    match sign {
        Sign::Plus if at + 1 < span.high => Some(at + 1),
        Sign::Minus if at > span.low => Some(at - 1),
        _ => None,
    }
}

/// The first number of a span in a direction.
pub(crate) fn first_number(sign: Sign, span: Span) -> u64
    requires { span.low < span.high }
    ensures { IsFirst sign span result }
{
    match sign {
        Sign::Plus => span.low,
        Sign::Minus => span.high - 1,
    }
}

/// So many numbers of a span there are from this one on, in a direction: as many as there are to its end.
pub(crate) fn left_from(sign: Sign, span: Span, at: u64) -> u64
    requires { IsOf span at }
    ensures there { AreThere sign at result }
    ensures some { 0 < result }
    ensures last { IsOf span (moved sign (result - 1) at) }
{
    match sign {
        Sign::Plus => span.high - at,
        Sign::Minus => at - span.low + 1,
    }
}

/// The pair of numbers of two spans after one, unless that is the last: the second numbers are gone through for each first.
pub(crate) fn next_pair(
    outer: Sign,
    inner: Sign,
    outer_span: Span,
    inner_span: Span,
    a: u64,
    b: u64,
) -> Option<(u64, u64)>
    requires outer { IsOf outer_span a }
    requires inner { IsOf inner_span b }
    ensures found { IfSome result (λ next. IsNextPair outer inner outer_span inner_span a b next) }
    ensures none { IfNone result (IsLastPair outer inner outer_span inner_span a b) }
{
    if let Some(next) = next_number(inner, inner_span, b) {
        return Some((a, next));
    }
    match next_number(outer, outer_span, a) {
        Some(next) => Some((next, first_number(inner, inner_span))),
        None => None,
    }
}

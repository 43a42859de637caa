ghost use Rattle.std.specs.Prelude.{◌≡◌, IfSome, Ok};
ghost use Rattle.pb_model.specs.Bodies.{Bindings, Store, view_of};
ghost use Rattle.pb_program.specs.declared.meaning.Function.TheVariants.{Dot, Sum};
ghost use Rattle.pb_statements.specs.Stored.{bound, store_of};
ghost use Rattle.pb_statements.specs.Working.{called_in, cell_in_list, function_in, name_in, operand_in, pair_in, place_in, single_in, value_in, values_in, view_in};

use crate::port::{NamesTurn, Port};
use crate::scene::Scene;
use crate::scratch::Scratch;
use pb_numbers::{KindWord, compare, decided, greater, in_words, lesser, negated, number, operate};
use pb_program::{Callee, Expr, Function, Meaning, Named};
use pb_syntax::Operator;
use pb_values::{CellReader, Kind, abs};

impl<'a, N: NamesTurn> Scene<'a, N> {
    /// The value of a name, or of a number of 64 bits, which needs no recursion; none for another expression.
    #[inline(always)]
    #[tactic(auto, unfolding(crate::specs::Working::value_in, pb_model::specs::Bodies::number_of, pb_model::specs::Bodies::value))]
    fn leaf<C: CellReader>(&self, e: &Expr, scratch: &Scratch, port: &mut Port<C, N>) -> Option<i64>
        ensures value { IfSome result (λ n. value_in (bound self.now scratch.now) (store_of scratch.now) e.now ≡ Ok n) }
        ensures same_reference { port.new.reader.ghost_name ≡ port.old.reader.ghost_name }
    {
        match e {
            Expr::Number { value, .. } => number(*value).ok(),
            Expr::Name(name) => match name.what {
                Meaning::Number(k) => Some(scratch.local(k)),
                _ => Some(self.named(name.what, scratch, port)),
            },
            _ => None,
        }
    }

    /// The value of an expression; a truth is 1 or 0.
    #[cycle(expression)]
    #[tactic(auto, using(crate::proofs::ExprLemmas::call_in, crate::proofs::ExprLemmas::cell_held, crate::proofs::ExprLemmas::chain_in, crate::proofs::ExprLemmas::compare_in), unfolding(crate::specs::Working::value_in, pb_model::specs::Bodies::value))]
    pub fn value<C: CellReader>(
        &self,
        e: &Expr,
        scratch: &Scratch,
        port: &mut Port<C, N>,
    ) -> Result<i64, KindWord>
        ensures value { result ≡ value_in (bound self.now scratch.now) (store_of scratch.now) e.now }
        ensures same_reference { port.new.reader.ghost_name ≡ port.old.reader.ghost_name }
    {
        match e {
            Expr::Number { value, .. } => number(*value),
            Expr::Name(name) => Ok(self.named(name.what, scratch, port)),
            Expr::Call { called, arguments } => self.call(called.what, arguments, scratch, port),
            Expr::Parentheses { inner, .. } => self.value(inner, scratch, port),
            Expr::Cell { view, coordinates } => {
                self.cell_of(view.what, coordinates, scratch, port)
            }
            Expr::Width(view) => Ok(self.sides(view.what, scratch).0),
            Expr::Height(view) => Ok(self.sides(view.what, scratch).1),
            Expr::Signed { sign, operand, .. } => {
                negated(*sign, self.value(operand, scratch, port)?)
            }
            Expr::Chain { first, rest, .. } => {
                let total = match self.leaf(first, scratch, port) {
                    Some(total) => total,
                    None => self.value(first, scratch, port)?,
                };
                self.values(rest, total, scratch, port)
            }
            Expr::Compare {
                left,
                relation,
                right,
            } => {
                let l = self.value(left, scratch, port)?;
                let r = self.value(right, scratch, port)?;
                Ok(compare(l, *relation, r))
            }
        }
    }

    /// An operator's operand on the right of a value. The right side of `&&` and `||` is looked at where the left doesn't decide.
    #[cycle(expression)]
    #[tactic(auto, using(crate::proofs::ArgumentLemmas::operand_decided, crate::proofs::ArgumentLemmas::operand_open))]
    fn operand<C: CellReader>(
        &self,
        e: &Expr,
        operator: Operator,
        left: i64,
        scratch: &Scratch,
        port: &mut Port<C, N>,
    ) -> Result<i64, KindWord>
        ensures value { result ≡ operand_in (bound self.now scratch.now) (store_of scratch.now) left operator e.now }
        ensures same_reference { port.new.reader.ghost_name ≡ port.old.reader.ghost_name }
    {
        if let Some(value) = decided(operator, left) {
            return Ok(value);
        }
        if let Some(right) = self.leaf(e, scratch, port) {
            return operate(operator, left, right);
        }
        operate(operator, left, self.value(e, scratch, port)?)
    }

    /// Operands, from left to right, after a value.
    #[cycle(expression)]
    #[tactic(auto, using(crate::proofs::ExprLemmas::values_end))]
    fn values<C: CellReader>(
        &self,
        rest: &[(Operator, Expr)],
        first: i64,
        scratch: &Scratch,
        port: &mut Port<C, N>,
    ) -> Result<i64, KindWord>
        ensures value { result ≡ values_in (bound self.now scratch.now) (store_of scratch.now) first rest.now }
        ensures same_reference { port.new.reader.ghost_name ≡ port.old.reader.ghost_name }
    {
        let mut total = first;
        for next in rest {
            match self.operand(&next.1, next.0, total, scratch, port) {
                Ok(value) => total = value,
                Err(kind) => return Err(kind),
            }
        }
        Ok(total)
    }

    /// The value of an expression that stands alone.
    #[cycle(expression)]
    #[tactic(auto, using(crate::proofs::ArgumentLemmas::single_there, crate::proofs::ArgumentLemmas::single_none, crate::proofs::ArgumentLemmas::single_more))]
    fn single<C: CellReader>(
        &self,
        numbers: &[Expr],
        scratch: &Scratch,
        port: &mut Port<C, N>,
    ) -> Result<i64, KindWord>
        ensures value { result ≡ single_in (bound self.now scratch.now) (store_of scratch.now) numbers.now }
        ensures same_reference { port.new.reader.ghost_name ≡ port.old.reader.ghost_name }
    {
        match numbers {
            [x] => self.value(x, scratch, port),
            _ => Err(KindWord::of(Kind::OutOfView)),
        }
    }

    /// The values of two expressions.
    #[cycle(expression)]
    #[tactic(auto, using(crate::proofs::ArgumentLemmas::pair_none, crate::proofs::ArgumentLemmas::pair_more))]
    fn pair<C: CellReader>(
        &self,
        numbers: &[Expr],
        scratch: &Scratch,
        port: &mut Port<C, N>,
    ) -> Result<(i64, i64), KindWord>
        ensures value { result ≡ pair_in (bound self.now scratch.now) (store_of scratch.now) numbers.now }
        ensures same_reference { port.new.reader.ghost_name ≡ port.old.reader.ghost_name }
    {
        match numbers {
            [x, y] => {
                let i = self.value(x, scratch, port)?;
                let j = self.value(y, scratch, port)?;
                Ok((i, j))
            }
            _ => Err(KindWord::of(Kind::OutOfView)),
        }
    }

    /// A cell of a view, at one or two coordinates.
    #[cycle(expression)]
    #[tactic(auto, using(crate::proofs::ArgumentLemmas::cell_placed))]
    fn cell_of<C: CellReader>(
        &self,
        view: Meaning,
        coordinates: &[Expr],
        scratch: &Scratch,
        port: &mut Port<C, N>,
    ) -> Result<i64, KindWord>
        ensures value { result ≡ cell_in_list (bound self.now scratch.now) (store_of scratch.now) view coordinates.now }
        ensures same_reference { port.new.reader.ghost_name ≡ port.old.reader.ghost_name }
    {
        let (i, j) = self.place(coordinates, scratch, port)?;
        self.cell(view, i, j, scratch, port)
    }

    /// The place that coordinates name; one coordinate names a place in the first row.
    #[cycle(expression)]
    #[tactic(auto, using(crate::proofs::ArgumentLemmas::place_single, crate::proofs::ArgumentLemmas::place_pair))]
    pub(crate) fn place<C: CellReader>(
        &self,
        coordinates: &[Expr],
        scratch: &Scratch,
        port: &mut Port<C, N>,
    ) -> Result<(i64, i64), KindWord>
        ensures value { result ≡ place_in (bound self.now scratch.now) (store_of scratch.now) coordinates.now }
        ensures same_reference { port.new.reader.ghost_name ≡ port.old.reader.ghost_name }
    {
        if coordinates.len() == 1 {
            return Ok((self.single(coordinates, scratch, port)?, 0));
        }
        self.pair(coordinates, scratch, port)
    }

    /// A call. A body that calls a transform is no computing one.
    #[cycle(expression)]
    #[tactic(auto, unfolding(crate::specs::Working::called_in, crate::specs::Working::function_in, pb_model::specs::Bodies::called))]
    fn call<C: CellReader>(
        &self,
        callee: Callee,
        arguments: &[Expr],
        scratch: &Scratch,
        port: &mut Port<C, N>,
    ) -> Result<i64, KindWord>
        ensures value { result ≡ called_in (bound self.now scratch.now) (store_of scratch.now) callee arguments.now }
        ensures same_reference { port.new.reader.ghost_name ≡ port.old.reader.ghost_name }
    {
        match callee {
            Callee::Function(function) => self.function(function, arguments, scratch, port),
            Callee::Transform(_) => Err(KindWord::of(Kind::OutOfView)),
        }
    }

    /// A call of a function.
    #[cycle(expression)]
    #[tactic(auto, using(crate::proofs::ArgumentLemmas::min_in, crate::proofs::ArgumentLemmas::max_in, crate::proofs::ArgumentLemmas::abs_in))]
    fn function<C: CellReader>(
        &self,
        function: Function,
        arguments: &[Expr],
        scratch: &Scratch,
        port: &mut Port<C, N>,
    ) -> Result<i64, KindWord>
        ensures value { result ≡ function_in (bound self.now scratch.now) (store_of scratch.now) function arguments.now }
        ensures same_reference { port.new.reader.ghost_name ≡ port.old.reader.ghost_name }
    {
        match function {
            Function::Sum => self.sum_of(arguments, scratch, port),
            Function::Dot => self.dot_of(arguments, scratch, port),
            Function::Min => {
                let (i, j) = self.pair(arguments, scratch, port)?;
                Ok(lesser(i, j))
            }
            Function::Max => {
                let (i, j) = self.pair(arguments, scratch, port)?;
                Ok(greater(i, j))
            }
            Function::Abs => in_words(abs(self.single(arguments, scratch, port)?)),
        }
    }

    #[tactic(auto, using(crate::proofs::ArgumentLemmas::sum_there, crate::proofs::ArgumentLemmas::sum_none, crate::proofs::ArgumentLemmas::sum_more))]
    fn sum_of<C: CellReader>(
        &self,
        arguments: &[Expr],
        scratch: &Scratch,
        port: &mut Port<C, N>,
    ) -> Result<i64, KindWord>
        ensures value { result ≡ function_in (bound self.now scratch.now) (store_of scratch.now) Sum arguments.now }
        ensures same_reference { port.new.reader.ghost_name ≡ port.old.reader.ghost_name }
    {
        match arguments {
            [view] => self.sum(named_view(view), scratch, port),
            _ => Err(KindWord::of(Kind::OutOfView)),
        }
    }

    #[tactic(auto, using(crate::proofs::ArgumentLemmas::dot_there, crate::proofs::ArgumentLemmas::dot_none, crate::proofs::ArgumentLemmas::dot_more))]
    fn dot_of<C: CellReader>(
        &self,
        arguments: &[Expr],
        scratch: &Scratch,
        port: &mut Port<C, N>,
    ) -> Result<i64, KindWord>
        ensures value { result ≡ function_in (bound self.now scratch.now) (store_of scratch.now) Dot arguments.now }
        ensures same_reference { port.new.reader.ghost_name ≡ port.old.reader.ghost_name }
    {
        match arguments {
            [view, other] => self.dot(named_view(view), named_view(other), scratch, port),
            _ => Err(KindWord::of(Kind::OutOfView)),
        }
    }
}

/// The name that an expression is.
#[tactic(auto, unfolding(crate::specs::Working::name_in))]
fn lone_name(e: &Expr) -> Option<Named>
    ensures { result ≡ name_in e.now }
{
    match e {
        Expr::Name(name) => Some(*name),
        _ => None,
    }
}

/// The name of a view that an argument is; another argument names no view.
pub fn named_view(e: &Expr) -> Meaning
    ensures { (b : Bindings) (st : Store) → view_of b st result ≡ view_in b st e.now }
{
    match lone_name(e) {
        Some(name) => name.what,
        None => Meaning::RuleX,
    }
}

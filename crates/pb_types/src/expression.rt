ghost use Rattle.std.specs.Prelude.{◌≡◌, ◌++◌};
ghost use Rattle.pb_types.specs.Least.{least_of};
ghost use Rattle.pb_types.specs.Views.{cell_broken};
ghost use Rattle.pb_types.specs.Numbers.{arguments_of, call_broken};
ghost use Rattle.pb_types.specs.Working.{count_in, expr_in, operand_in, numbers_in, matrix_in, matrices_in, operands_in, pair_in};

use crate::least::least;
use crate::sort::{Sort, level_sort, lone_name, place_of, sign_sort, wrong_sort};
use crate::views::Bound;
use pb_program::{Called, Callee, Expr, Function, Named};
use pb_syntax::Operator;

fn arguments_of(function: Function) -> usize
    ensures { result ≡ arguments_of function }
{
    match function {
        Function::Sum | Function::Abs => 1,
        Function::Dot | Function::Min | Function::Max => 2,
    }
}

impl<'a> Bound<'a> {
    /// The least place of a fault in an expression.
    #[cycle(expression)]
    #[tactic(auto, using(crate::proofs::HeldLemmas::chain_in, crate::proofs::HeldLemmas::compare_in), unfolding(crate::specs::Least::least_of, crate::specs::Working::count_in, crate::specs::Working::expr_in, crate::specs::Working::operand_in, crate::specs::Working::numbers_in, crate::specs::Working::matrices_in))]
    pub(crate) fn expression(&self, e: &Expr) -> Option<u32>
        ensures { result ≡ least_of (expr_in self.now e.now) }
    {
        match e {
            Expr::Number { .. } => None,
            Expr::Name(name) => self.number(*name),
            Expr::Call { called, arguments } => self.call(*called, arguments),
            Expr::Parentheses { inner, .. } => self.expression(inner),
            Expr::Cell { view, coordinates } => self.cell_of(*view, coordinates),
            Expr::Width(view) => self.matrix(*view),
            Expr::Height(view) => self.matrix(*view),
            Expr::Signed { sign, operand, .. } => self.operand(sign_sort(*sign), operand),
            Expr::Chain { level, first, rest } => {
                let taken = level_sort(*level);
                least(self.operand(taken, first), self.operands(taken, rest))
            }
            Expr::Compare { left, right, .. } => least(
                self.operand(Sort::Number, left),
                self.operand(Sort::Number, right),
            ),
        }
    }

    /// The least place of a fault in an operand of the sort that is taken.
    #[cycle(expression)]
    #[tactic(auto, using(crate::proofs::LeastLemmas::least_append), unfolding(crate::specs::Working::expr_in, crate::specs::Working::operand_in, crate::specs::Working::wrong_in))]
    pub(crate) fn operand(&self, taken: Sort, e: &Expr) -> Option<u32>
        ensures { result ≡ least_of (operand_in self.now taken e.now) }
    {
        least(wrong_sort(taken, e), self.expression(e))
    }

    #[cycle(expression)]
    #[tactic(auto, using(crate::proofs::LeastLemmas::least_one, crate::proofs::HeldLemmas::counted))]
    fn call(&self, called: Called, arguments: &[Expr]) -> Option<u32>
        ensures { result ≡ least_of (call_broken called.what called.at (count_in arguments.now) (matrices_in self.now arguments.now) (numbers_in self.now arguments.now)) }
    {
        match called.what {
            Callee::Function(function) => {
                if arguments.len() == arguments_of(function) {
                    self.arguments(function, arguments)
                } else {
                    Some(called.at)
                }
            }
            Callee::Transform(_) => Some(called.at),
        }
    }

    ghost use Rattle.pb_types.specs.Numbers.{by_function};

    #[cycle(expression)]
    fn arguments(&self, function: Function, arguments: &[Expr]) -> Option<u32>
        ensures { result ≡ least_of (by_function function (matrices_in self.now arguments.now) (numbers_in self.now arguments.now)) }
    {
        match function {
            Function::Sum | Function::Dot => self.matrices(arguments),
            Function::Min | Function::Max | Function::Abs => self.numbers(arguments),
        }
    }

    #[cycle(expression)]
    #[tactic(auto, using(crate::proofs::LeastLemmas::least_append, crate::proofs::HeldLemmas::counted))]
    fn cell_of(&self, view: Named, coordinates: &[Expr]) -> Option<u32>
        ensures { result ≡ least_of (cell_broken self.now view (count_in coordinates.now) ++ numbers_in self.now coordinates.now) }
    {
        least(
            self.cell(view, coordinates.len()),
            self.numbers(coordinates),
        )
    }

    /// The least place of a fault in numbers.
    #[cycle(expression)]
    #[tactic(auto, using(crate::proofs::LeastLemmas::least_next, crate::proofs::LeastLemmas::least_end, crate::proofs::HeldLemmas::numbers_listed))]
    pub(crate) fn numbers(&self, numbers: &[Expr]) -> Option<u32>
        ensures { result ≡ least_of (numbers_in self.now numbers.now) }
    {
        let mut found = None;
        for next in numbers {
            found = least(found, self.operand(Sort::Number, next));
        }
        found
    }

    #[cycle(expression)]
    #[tactic(auto, using(crate::proofs::HeldLemmas::pair_next, crate::proofs::LeastLemmas::least_end, crate::proofs::HeldLemmas::operands_listed))]
    fn operands(&self, taken: Sort, rest: &[(Operator, Expr)]) -> Option<u32>
        ensures { result ≡ least_of (operands_in self.now taken rest.now) }
    {
        let mut found = None;
        for next in rest {
            found = least(found, self.operand(taken, &next.1));
        }
        found
    }

    #[tactic(auto, using(crate::proofs::LeastLemmas::least_next, crate::proofs::LeastLemmas::least_end, crate::proofs::HeldLemmas::matrices_listed))]
    fn matrices(&self, arguments: &[Expr]) -> Option<u32>
        ensures { result ≡ least_of (matrices_in self.now arguments.now) }
    {
        let mut found = None;
        for next in arguments {
            found = least(found, self.matrix_argument(next));
        }
        found
    }

    #[tactic(auto, using(crate::proofs::LeastLemmas::least_one), unfolding(crate::specs::Working::matrix_in, crate::specs::Working::name_in, crate::specs::Working::place_in))]
    fn matrix_argument(&self, e: &Expr) -> Option<u32>
        ensures { result ≡ least_of (matrix_in self.now e.now) }
    {
        match lone_name(e) {
            Some(name) => self.matrix(name),
            None => Some(place_of(e)),
        }
    }
}

ghost use Rattle.std.specs.Prelude.{◌≡◌, ◌++◌, length, map};
ghost use Rattle.std.specs.List.{flat_map};
ghost use Rattle.pb_program.specs.Exprs.{bare};
ghost use Rattle.pb_types.specs.declared.sort.Sort.TheVariants.{Number, Truth};
ghost use Rattle.pb_types.specs.Least.{least_of};
ghost use Rattle.pb_types.specs.Bodies.{is_assigned, is_output, target_broken, cell_target_broken};
ghost use Rattle.pb_types.specs.Loops.{names};
ghost use Rattle.pb_types.specs.Working.{operand_in, listed_in, stmt_in, stmts_in};

use crate::least::{least, unless};
use crate::loops::Loops;
use crate::sort::Sort;
use crate::views::Bound;
use pb_program::{Expr, Meaning, Named, Stmt};

fn is_output(named: Meaning) -> bool
    ensures { result ≡ is_output named }
{
    matches!(named, Meaning::Output(_))
}

impl<'a> Bound<'a> {
    fn is_assigned(&self, loops: &Loops, named: Meaning) -> bool
        ensures { result ≡ is_assigned self.now (names loops.now) named }
    {
        match named {
            Meaning::Output(_) => self.is_cell(named),
            Meaning::Number(k) => !loops.has(k),
            _ => false,
        }
    }

    #[tactic(auto, using(crate::proofs::LeastLemmas::least_append))]
    fn assign(&self, loops: &Loops, target: Named, value: &Expr) -> Option<u32>
        ensures { result ≡ least_of (target_broken self.now (names loops.now) target ++ operand_in self.now Number value.now) }
    {
        least(
            unless(self.is_assigned(loops, target.what), target.at),
            self.operand(Sort::Number, value),
        )
    }

    #[tactic(auto, using(crate::proofs::LeastLemmas::least_append))]
    fn assign_cell(&self, target: Named, coordinates: &[Expr], value: &Expr) -> Option<u32>
        ensures { result ≡ least_of (cell_target_broken self.now target (length (map bare coordinates.now)) ++ (listed_in self.now coordinates.now ++ operand_in self.now Number value.now)) }
    {
        let cell = self.cell_target(target, coordinates);
        let coordinates = self.listed(coordinates);
        least(cell, least(coordinates, self.operand(Sort::Number, value)))
    }

    fn cell_target(&self, target: Named, coordinates: &[Expr]) -> Option<u32>
        ensures { result ≡ least_of (cell_target_broken self.now target (length (map bare coordinates.now))) }
    {
        let fits = is_output(target.what) && self.has_dims(target.what, coordinates.len());
        unless(fits, target.at)
    }

    /// The least place of a fault in the coordinates of an assigned cell.
    #[tactic(auto, using(crate::proofs::HeldLemmas::numbers_are_listed))]
    fn listed(&self, numbers: &[Expr]) -> Option<u32>
        ensures { result ≡ least_of (listed_in self.now numbers.now) }
    {
        self.numbers(numbers)
    }

    #[tactic(auto, using(crate::proofs::LeastLemmas::least_append))]
    fn ends(&self, start: &Expr, end: &Expr) -> Option<u32>
        ensures { result ≡ least_of (operand_in self.now Number start.now ++ operand_in self.now Number end.now) }
    {
        least(
            self.operand(Sort::Number, start),
            self.operand(Sort::Number, end),
        )
    }

    /// The least place of a fault in a statement.
    #[cycle(statement)]
    #[tactic(auto, using(crate::proofs::StmtLemmas::if_in, crate::proofs::StmtLemmas::if_else_in, crate::proofs::StmtLemmas::for_in, crate::proofs::StmtLemmas::names_inside), unfolding(crate::specs::Least::least_of, crate::specs::Working::operand_in, crate::specs::Working::listed_in, crate::specs::Working::stmt_in, crate::specs::Working::stmts_in))]
    fn statement(&self, s: &Stmt, loops: &Loops) -> Option<u32>
        ensures { result ≡ least_of (stmt_in self.now (names loops.now) s.now) }
    {
        match s {
            Stmt::Let { value, .. } => self.operand(Sort::Number, value),
            Stmt::LetMatrix { at, .. } => Some(*at),
            Stmt::Assign { target, value } => self.assign(loops, *target, value),
            Stmt::Call { called, .. } => Some(called.at),
            Stmt::AssignCell {
                target,
                coordinates,
                value,
            } => self.assign_cell(*target, coordinates, value),
            Stmt::If {
                test,
                then,
                otherwise,
                ..
            } => {
                let test = self.operand(Sort::Truth, test);
                let then = least(test, self.statements(then, loops));
                match otherwise {
                    Some(otherwise) => least(then, self.statements(otherwise, loops)),
                    None => then,
                }
            }
            Stmt::For {
                name,
                start,
                end,
                body,
                ..
            } => {
                let inner = Loops::Inside {
                    name: name.what,
                    outer: &*loops,
                };
                least(self.ends(start, end), self.statements(body, &inner))
            }
        }
    }

    /// The least place of a fault in statements.
    #[cycle(statement)]
    #[tactic(auto, using(crate::proofs::LeastLemmas::least_next, crate::proofs::LeastLemmas::least_end, crate::proofs::StmtLemmas::stmts_listed))]
    pub(crate) fn statements(&self, ss: &[Stmt], loops: &Loops) -> Option<u32>
        ensures { result ≡ least_of (stmts_in self.now (names loops.now) ss.now) }
    {
        let mut found = None;
        for next in ss {
            found = least(found, self.statement(next, loops));
        }
        found
    }
}

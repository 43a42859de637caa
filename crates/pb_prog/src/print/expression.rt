ghost use Rattle.std.specs.Prelude.{◌≡◌, [], ◌∷◌, ◌++◌, codes, OnOk};
ghost use Rattle.pb_prog.specs.Spelling.{word, sign_at, opening, closing, dot, operator_sign, unary_sign, relation_sign};
ghost use Rattle.pb_prog.specs.Writing.{puts, expr_in, args_in, operands_in};

use crate::print::writer::Writer;
use pb_syntax::{ExprText, Operator, Relation, UnarySign, sign};
use pb_values::Name;
use std::alloc::AllocError;

fn operator_sign(operator: Operator) -> u8
    ensures { result ≡ operator_sign operator }
{
    match operator {
        Operator::Times => sign::TIMES,
        Operator::Over => sign::OVER,
        Operator::Modulo => sign::MODULO,
        Operator::Plus => sign::PLUS,
        Operator::Minus => sign::MINUS,
        Operator::And => sign::AND,
        Operator::Or => sign::OR,
    }
}

fn unary_sign(sign: UnarySign) -> u8
    ensures { result ≡ unary_sign sign }
{
    match sign {
        UnarySign::Minus => sign::MINUS,
        UnarySign::Not => sign::NOT,
    }
}

impl Writer {
    /// Puts an expression.
    #[cycle(expression)]
    #[tactic(auto, using(crate::proofs::TreeLemmas::unary_listed), unfolding(crate::specs::Spelling::expr_tokens, crate::specs::Writing::expr_in, crate::specs::Writing::args_in, crate::specs::Writing::operands_in))]
    pub(crate) fn expression(&mut self, expression: &ExprText) -> Result<(), AllocError>
        ensures { OnOk result (self.new ≡ puts self.old (expr_in expression.now)) }
    {
        match expression {
            ExprText::Number { value, .. } => self.number(*value),
            ExprText::Name(name) => self.name(name),
            ExprText::Call { called, arguments } => self.call(called, arguments),
            ExprText::Parentheses { inner, .. } => self.parentheses(inner),
            ExprText::Cell { view, coordinates } => self.cell(view, coordinates),
            ExprText::Width(view) => {
                self.name(view)?;
                self.member(b"width")?;
                self.sign(sign::CLOSE)
            }
            ExprText::Height(view) => {
                self.name(view)?;
                self.member(b"height")?;
                self.sign(sign::CLOSE)
            }
            ExprText::Signed { sign, operand, .. } => {
                self.sign(unary_sign(*sign))?;
                self.expression(operand)
            }
            ExprText::Chain { first, rest, .. } => {
                self.expression(first)?;
                self.operands(rest)
            }
            ExprText::Compare {
                left,
                relation,
                right,
            } => {
                self.expression(left)?;
                self.compared(*relation, right)
            }
        }
    }

    #[cycle(expression)]
    #[tactic(auto, using(crate::proofs::WriterLemmas::puts_append))]
    fn call(&mut self, called: &Name, arguments: &[ExprText]) -> Result<(), AllocError>
        ensures { OnOk result (self.new ≡ puts self.old (word called.now.bytes ∷ opening ∷ (args_in arguments.now ++ (closing ∷ [])))) }
    {
        self.name(called)?;
        self.sign(sign::OPEN)?;
        self.expressions(arguments)?;
        self.sign(sign::CLOSE)
    }

    #[cycle(expression)]
    #[tactic(auto, using(crate::proofs::WriterLemmas::puts_append))]
    fn parentheses(&mut self, inner: &ExprText) -> Result<(), AllocError>
        ensures { OnOk result (self.new ≡ puts self.old (opening ∷ (expr_in inner.now ++ (closing ∷ [])))) }
    {
        self.sign(sign::OPEN)?;
        self.expression(inner)?;
        self.sign(sign::CLOSE)
    }

    /// Puts a cell of a view.
    #[cycle(expression)]
    #[tactic(auto, using(crate::proofs::WriterLemmas::puts_append))]
    pub(crate) fn cell(&mut self, view: &Name, coordinates: &[ExprText]) -> Result<(), AllocError>
        ensures { OnOk result (self.new ≡ puts self.old (word view.now.bytes ∷ dot ∷ word (codes "cell") ∷ opening ∷ (args_in coordinates.now ++ (closing ∷ [])))) }
    {
        self.name(view)?;
        self.member(b"cell")?;
        self.expressions(coordinates)?;
        self.sign(sign::CLOSE)
    }

    #[cycle(expression)]
    fn compared(&mut self, relation: Relation, right: &ExprText) -> Result<(), AllocError>
        ensures { OnOk result (self.new ≡ puts self.old (sign_at (relation_sign relation) ∷ expr_in right.now)) }
    {
        self.relation(relation)?;
        self.expression(right)
    }

    #[cycle(expression)]
    #[tactic(auto, using(crate::proofs::TreeLemmas::operand_more, crate::proofs::WriterLemmas::order_end, crate::proofs::TreeLemmas::operator_listed, crate::proofs::TreeLemmas::operands_listed))]
    fn operands(&mut self, operands: &[(Operator, ExprText)]) -> Result<(), AllocError>
        ensures { OnOk result (self.new ≡ puts self.old (operands_in operands.now)) }
    {
        for next in operands {
            self.sign(operator_sign(next.0))?;
            self.expression(&next.1)?;
        }
        Ok(())
    }

    /// Puts expressions with commas between them.
    #[cycle(expression)]
    #[tactic(auto, using(crate::proofs::WriterLemmas::commas_more, crate::proofs::WriterLemmas::commas_end, crate::proofs::TreeLemmas::arguments_listed))]
    pub(crate) fn expressions(&mut self, expressions: &[ExprText]) -> Result<(), AllocError>
        ensures { OnOk result (self.new ≡ puts self.old (args_in expressions.now)) }
    {
        let mut is_first = true;
        for next in expressions {
            self.comma(is_first)?;
            self.expression(next)?;
            is_first = false;
        }
        Ok(())
    }
}

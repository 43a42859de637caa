ghost use Rattle.std.specs.Prelude.{◌≡◌, ◌∷◌, map, codes, OnOk};
ghost use Rattle.pb_syntax.specs.Exprs.{bare};
ghost use Rattle.pb_syntax.specs.Stmts.{let_number, let_matrix, assign, call_stmt, assign_cell};
ghost use Rattle.pb_prog.specs.Spelling.{word, opening, closing, open_brace, close_brace, equals, dots, name_tokens, with_commas, stmt_tokens};
ghost use Rattle.pb_prog.specs.Writing.{puts, expr_in, stmt_in, body_in, block_in};

use crate::print::writer::Writer;
use pb_syntax::{ExprText, FormText, StmtText, TokenKind, sign};
use pb_values::Name;
use std::alloc::AllocError;

impl Writer {
    #[tactic(auto, using(crate::proofs::WriterLemmas::commas_more, crate::proofs::WriterLemmas::commas_end))]
    fn names(&mut self, names: &[Name]) -> Result<(), AllocError>
        ensures { OnOk result (self.new ≡ puts self.old (with_commas name_tokens names.now)) }
    {
        let mut is_first = true;
        for next in names {
            self.comma(is_first)?;
            self.name(next)?;
            is_first = false;
        }
        Ok(())
    }

    #[tactic(auto, using(crate::proofs::WriterLemmas::puts_append), unfolding(crate::specs::Spelling::stmt_tokens, crate::specs::Writing::expr_in, crate::specs::Writing::args_in))]
    fn let_number(&mut self, name: &Name, value: &ExprText) -> Result<(), AllocError>
        ensures { OnOk result (self.new ≡ puts self.old (stmt_tokens (let_number 0 name.now (bare value.now)))) }
    {
        self.keyword(TokenKind::Let, b"let")?;
        self.name(name)?;
        self.sign(sign::ASSIGN)?;
        self.expression(value)?;
        self.sign(sign::SEMICOLON)
    }

    #[tactic(auto, using(crate::proofs::WriterLemmas::puts_append), unfolding(crate::specs::Spelling::stmt_tokens, crate::specs::Writing::expr_in, crate::specs::Writing::args_in))]
    fn let_matrix(&mut self, name: &Name, dims: &[FormText]) -> Result<(), AllocError>
        ensures { OnOk result (self.new ≡ puts self.old (stmt_tokens (let_matrix 0 name.now dims.now))) }
    {
        self.keyword(TokenKind::Let, b"let")?;
        self.name(name)?;
        self.sign(sign::OPEN_BRACKET)?;
        self.forms(dims)?;
        self.sign(sign::CLOSE_BRACKET)?;
        self.sign(sign::SEMICOLON)
    }

    #[tactic(auto, using(crate::proofs::WriterLemmas::puts_append), unfolding(crate::specs::Spelling::stmt_tokens, crate::specs::Writing::expr_in, crate::specs::Writing::args_in))]
    fn assign(&mut self, target: &Name, value: &ExprText) -> Result<(), AllocError>
        ensures { OnOk result (self.new ≡ puts self.old (stmt_tokens (assign target.now (bare value.now)))) }
    {
        self.name(target)?;
        self.sign(sign::ASSIGN)?;
        self.expression(value)?;
        self.sign(sign::SEMICOLON)
    }

    #[tactic(auto, using(crate::proofs::WriterLemmas::puts_append), unfolding(crate::specs::Spelling::stmt_tokens, crate::specs::Writing::expr_in, crate::specs::Writing::args_in))]
    fn call_statement(
        &mut self,
        targets: &[Name],
        called: &Name,
        arguments: &[ExprText],
    ) -> Result<(), AllocError>
        ensures { OnOk result (self.new ≡ puts self.old (stmt_tokens (call_stmt targets.now called.now (map bare arguments.now)))) }
    {
        self.names(targets)?;
        self.sign(sign::ASSIGN)?;
        self.name(called)?;
        self.sign(sign::OPEN)?;
        self.expressions(arguments)?;
        self.sign(sign::CLOSE)?;
        self.sign(sign::SEMICOLON)
    }

    #[tactic(auto, using(crate::proofs::WriterLemmas::puts_append), unfolding(crate::specs::Spelling::stmt_tokens, crate::specs::Writing::expr_in, crate::specs::Writing::args_in))]
    fn assign_cell(
        &mut self,
        target: &Name,
        coordinates: &[ExprText],
        value: &ExprText,
    ) -> Result<(), AllocError>
        ensures { OnOk result (self.new ≡ puts self.old (stmt_tokens (assign_cell target.now (map bare coordinates.now) (bare value.now)))) }
    {
        self.name(target)?;
        self.member(b"cell")?;
        self.expressions(coordinates)?;
        self.sign(sign::CLOSE)?;
        self.sign(sign::ASSIGN)?;
        self.expression(value)?;
        self.sign(sign::SEMICOLON)
    }

    fn if_head(&mut self, test: &ExprText) -> Result<(), AllocError>
        ensures { OnOk result (self.new ≡ puts self.old (word (codes "if") ∷ opening ∷ expr_in test.now)) }
    {
        self.keyword(TokenKind::If, b"if")?;
        self.sign(sign::OPEN)?;
        self.expression(test)
    }

    fn for_head(&mut self, name: &Name, start: &ExprText) -> Result<(), AllocError>
        ensures { OnOk result (self.new ≡ puts self.old (word (codes "for") ∷ opening ∷ word name.now.bytes ∷ equals ∷ expr_in start.now)) }
    {
        self.keyword(TokenKind::For, b"for")?;
        self.sign(sign::OPEN)?;
        self.name(name)?;
        self.sign(sign::ASSIGN)?;
        self.expression(start)
    }

    fn for_end(&mut self, end: &ExprText) -> Result<(), AllocError>
        ensures { OnOk result (self.new ≡ puts self.old (dots ∷ expr_in end.now)) }
    {
        self.sign(sign::DOTS)?;
        self.expression(end)
    }

    /// Puts `)` and a block.
    #[cycle(statement)]
    fn after_head(&mut self, statements: &[StmtText]) -> Result<(), AllocError>
        ensures { OnOk result (self.new ≡ puts self.old (closing ∷ block_in statements.now)) }
    {
        self.sign(sign::CLOSE)?;
        self.block(statements)
    }

    /// Puts `)`, `{` and statements.
    #[cycle(statement)]
    fn then(&mut self, statements: &[StmtText]) -> Result<(), AllocError>
        ensures { OnOk result (self.new ≡ puts self.old (closing ∷ open_brace ∷ body_in statements.now)) }
    {
        self.sign(sign::CLOSE)?;
        self.sign(sign::OPEN_BRACE)?;
        self.statements(statements)
    }

    /// Puts `}`, `else` and a block.
    #[cycle(statement)]
    fn otherwise(&mut self, statements: &[StmtText]) -> Result<(), AllocError>
        ensures { OnOk result (self.new ≡ puts self.old (close_brace ∷ word (codes "else") ∷ block_in statements.now)) }
    {
        self.sign(sign::CLOSE_BRACE)?;
        self.keyword(TokenKind::Else, b"else")?;
        self.block(statements)
    }

    #[cycle(statement)]
    #[tactic(auto, unfolding(crate::specs::Spelling::stmt_tokens, crate::specs::Writing::stmt_in, crate::specs::Writing::expr_in, crate::specs::Writing::args_in, crate::specs::Writing::body_in))]
    fn statement(&mut self, statement: &StmtText) -> Result<(), AllocError>
        ensures { OnOk result (self.new ≡ puts self.old (stmt_in statement.now)) }
    {
        match statement {
            StmtText::Let { name, value, .. } => self.let_number(name, value),
            StmtText::LetMatrix { name, dims, .. } => self.let_matrix(name, dims),
            StmtText::Assign { target, value } => self.assign(target, value),
            StmtText::Call {
                targets,
                called,
                arguments,
            } => self.call_statement(targets, called, arguments),
            StmtText::AssignCell {
                target,
                coordinates,
                value,
            } => self.assign_cell(target, coordinates, value),
            StmtText::If {
                test,
                then,
                otherwise,
                ..
            } => match otherwise {
                None => {
                    self.if_head(test)?;
                    self.after_head(then)
                }
                Some(otherwise) => {
                    self.if_head(test)?;
                    self.then(then)?;
                    self.otherwise(otherwise)
                }
            },
            StmtText::For {
                name,
                start,
                end,
                body,
                ..
            } => {
                self.for_head(name, start)?;
                self.for_end(end)?;
                self.after_head(body)
            }
        }
    }

    #[cycle(statement)]
    #[tactic(auto, using(crate::proofs::WriterLemmas::order_more, crate::proofs::WriterLemmas::order_end, crate::proofs::TreeLemmas::stmts_listed))]
    fn statements(&mut self, statements: &[StmtText]) -> Result<(), AllocError>
        ensures { OnOk result (self.new ≡ puts self.old (body_in statements.now)) }
    {
        for next in statements {
            self.statement(next)?;
        }
        Ok(())
    }

    /// Puts statements in braces.
    #[cycle(statement)]
    #[tactic(auto, using(crate::proofs::WriterLemmas::puts_append))]
    pub(crate) fn block(&mut self, statements: &[StmtText]) -> Result<(), AllocError>
        ensures { OnOk result (self.new ≡ puts self.old (block_in statements.now)) }
    {
        self.sign(sign::OPEN_BRACE)?;
        self.statements(statements)?;
        self.sign(sign::CLOSE_BRACE)
    }
}

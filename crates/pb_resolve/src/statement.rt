ghost use Rattle.std.specs.Prelude.{◌≡◌, [], ◌++◌, map, IfOk, IfErr, OnOk};
ghost use Rattle.std.specs.List.{flat_map};
ghost use Rattle.pb_program.specs.declared.meaning.Meaning.TheVariants.{Number, Matrix};
ghost use Rattle.pb_program.specs.Exprs.{bare};
ghost use Rattle.pb_program.specs.Stmts.{bare_stmt, let_number, let_matrix, assign, call_stmt, assign_cell, stmts};
ghost use Rattle.pb_names.specs.Faults.{Fails};
ghost use Rattle.pb_names.specs.Bodies.{named, local, called, declare, use_faults, called_faults, declared_faults, local_form, form_faults};
ghost use Rattle.pb_resolve.specs.Working.{expr_in, faults_in, args_in, args_faults_in, stmt_in, stmt_faults_in, after_in, block_in, block_faults_in, body_in, after_all};

use crate::scope::Scope;
use pb_names::{Fault, make_statement as make};
use pb_program::{Meaning, Stmt};
use pb_syntax::{ExprText, FormText, StmtText};
use pb_values::Name;

impl<'t, 'p> Scope<'t, 'p> {
    #[tactic(auto, using(crate::proofs::FaultLemmas::fails_left, crate::proofs::FaultLemmas::fails_right))]
    fn let_number(&mut self, at: u32, name: &'t Name, value: &ExprText) -> Result<Stmt, Fault>
        ensures found { IfOk result (λ s. bare_stmt s ≡ let_number at (local self.old name.now Number) (expr_in self.old value.now)) }
        ensures left { OnOk result (self.new ≡ declare self.old name.now Number) }
        ensures faultless { OnOk result (declared_faults self.old name.now ++ faults_in self.old value.now ≡ []) }
        ensures refused { IfErr result (λ f. Fails f (declared_faults self.old name.now ++ faults_in self.old value.now)) }
    {
        self.is_new(name)?;
        let value = self.expression(value)?;
        let name = self.declare(name, Meaning::Number(self.next_local()))?;
        Ok(make::let_number(at, name, value))
    }

    #[tactic(auto, using(crate::proofs::FaultLemmas::fails_left, crate::proofs::FaultLemmas::fails_right))]
    fn let_matrix(&mut self, at: u32, name: &'t Name, dims: &[FormText]) -> Result<Stmt, Fault>
        ensures found { IfOk result (λ s. bare_stmt s ≡ let_matrix at (local self.old name.now Matrix) (map (local_form self.old) dims.now)) }
        ensures left { OnOk result (self.new ≡ declare self.old name.now Matrix) }
        ensures faultless { OnOk result (declared_faults self.old name.now ++ flat_map (form_faults self.old) dims.now ≡ []) }
        ensures refused { IfErr result (λ f. Fails f (declared_faults self.old name.now ++ flat_map (form_faults self.old) dims.now)) }
    {
        self.is_new(name)?;
        let dims = self.dims(dims)?;
        let name = self.declare(name, Meaning::Matrix(self.next_local()))?;
        Ok(make::let_matrix(at, name, dims))
    }

    #[tactic(auto, using(crate::proofs::FaultLemmas::fails_left, crate::proofs::FaultLemmas::fails_right))]
    fn assign(&self, target: &Name, value: &ExprText) -> Result<Stmt, Fault>
        ensures found { IfOk result (λ s. bare_stmt s ≡ assign (named self.now target.now) (expr_in self.now value.now)) }
        ensures faultless { OnOk result (use_faults self.now target.now ++ faults_in self.now value.now ≡ []) }
        ensures refused { IfErr result (λ f. Fails f (use_faults self.now target.now ++ faults_in self.now value.now)) }
    {
        let target = self.named(target)?;
        Ok(make::assign(target, self.expression(value)?))
    }

    #[tactic(auto, using(crate::proofs::FaultLemmas::fails_left, crate::proofs::FaultLemmas::fails_right, crate::proofs::ListLemmas::args_listed, crate::proofs::ListLemmas::args_faults_listed))]
    fn call_statement(
        &self,
        targets: &[Name],
        name: &Name,
        arguments: &[ExprText],
    ) -> Result<Stmt, Fault>
        ensures found { IfOk result (λ s. bare_stmt s ≡ call_stmt (map (named self.now) targets.now) (called self.now name.now) (args_in self.now arguments.now)) }
        ensures faultless { OnOk result (flat_map (use_faults self.now) targets.now ++ (called_faults self.now name.now ++ args_faults_in self.now arguments.now) ≡ []) }
        ensures refused { IfErr result (λ f. Fails f (flat_map (use_faults self.now) targets.now ++ (called_faults self.now name.now ++ args_faults_in self.now arguments.now))) }
    {
        let targets = self.names(targets)?;
        let called = self.called(name)?;
        Ok(make::call(targets, called, self.expressions(arguments)?))
    }

    #[tactic(auto, using(crate::proofs::FaultLemmas::fails_left, crate::proofs::FaultLemmas::fails_right, crate::proofs::ListLemmas::args_listed, crate::proofs::ListLemmas::args_faults_listed))]
    fn assign_cell(
        &self,
        target: &Name,
        coordinates: &[ExprText],
        value: &ExprText,
    ) -> Result<Stmt, Fault>
        ensures found { IfOk result (λ s. bare_stmt s ≡ assign_cell (named self.now target.now) (args_in self.now coordinates.now) (expr_in self.now value.now)) }
        ensures faultless { OnOk result (use_faults self.now target.now ++ (args_faults_in self.now coordinates.now ++ faults_in self.now value.now) ≡ []) }
        ensures refused { IfErr result (λ f. Fails f (use_faults self.now target.now ++ (args_faults_in self.now coordinates.now ++ faults_in self.now value.now))) }
    {
        let target = self.named(target)?;
        let coordinates = self.expressions(coordinates)?;
        Ok(make::assign_cell(target, coordinates, self.expression(value)?))
    }

    /// Resolves a statement, and adds what it declares.
    #[cycle(statement)]
    #[tactic(auto, using(crate::proofs::FaultLemmas::fails_left, crate::proofs::FaultLemmas::fails_right), unfolding(crate::specs::Working::stmt_in, crate::specs::Working::stmt_faults_in, crate::specs::Working::after_in, crate::specs::Working::expr_in, crate::specs::Working::faults_in, crate::specs::Working::args_in, crate::specs::Working::args_faults_in, crate::specs::Working::block_in, crate::specs::Working::block_faults_in))]
    fn statement(&mut self, s: &'t StmtText) -> Result<Stmt, Fault>
        ensures found { IfOk result (λ x. bare_stmt x ≡ stmt_in self.old s.now) }
        ensures left { OnOk result (self.new ≡ after_in self.old s.now) }
        ensures faultless { OnOk result (stmt_faults_in self.old s.now ≡ []) }
        ensures refused { IfErr result (λ f. Fails f (stmt_faults_in self.old s.now)) }
    {
        match s {
            StmtText::Let { at, name, value } => self.let_number(*at, name, value),
            StmtText::LetMatrix { at, name, dims } => self.let_matrix(*at, name, dims),
            StmtText::Assign { target, value } => self.assign(target, value),
            StmtText::Call {
                targets,
                called,
                arguments,
            } => self.call_statement(targets, called, arguments),
            StmtText::AssignCell {
                target,
                coordinates,
                value,
            } => self.assign_cell(target, coordinates, value),
            StmtText::If {
                at,
                test,
                then,
                otherwise,
            } => {
                let test = self.expression(test)?;
                let then = self.block(then)?;
                match otherwise {
                    Some(otherwise) => Ok(make::either(*at, test, then, self.block(otherwise)?)),
                    None => Ok(make::when(*at, test, then)),
                }
            }
            StmtText::For {
                at,
                name,
                start,
                end,
                body,
            } => {
                self.is_new(name)?;
                let start = self.expression(start)?;
                let end = self.expression(end)?;
                let mark = self.mark();
                let name = self.declare(name, Meaning::Number(mark.locals()))?;
                let body = self.statements(body)?;
                self.leave(mark);
                Ok(make::repeat(*at, name, start, end, body))
            }
        }
    }

    /// Resolves the statements of a block, and forgets what they declare.
    #[cycle(statement)]
    pub(crate) fn block(&mut self, ss: &'t [StmtText]) -> Result<Vec<Stmt>, Fault>
        ensures found { IfOk result (λ xs. stmts (map bare_stmt xs.items) ≡ block_in self.old ss.now) }
        ensures listed { IfOk result (λ xs. map bare_stmt xs.items ≡ body_in self.old ss.now) }
        ensures left { OnOk result (self.new ≡ self.old) }
        ensures faultless { OnOk result (block_faults_in self.old ss.now ≡ []) }
        ensures refused { IfErr result (λ f. Fails f (block_faults_in self.old ss.now)) }
    {
        let mark = self.mark();
        let found = self.statements(ss)?;
        self.leave(mark);
        Ok(found)
    }

    /// Resolves statements in their order, and adds what they declare.
    #[cycle(statement)]
    #[tactic(auto, using(crate::proofs::FaultLemmas::fails_memory, crate::proofs::ScopeLemmas::block_built, crate::proofs::ScopeLemmas::body_built, crate::proofs::ScopeLemmas::block_faultless, crate::proofs::ScopeLemmas::scope_left, crate::proofs::ScopeLemmas::statement_fails, crate::proofs::ScopeLemmas::statement_read, crate::proofs::ScopeLemmas::none_read, crate::proofs::ScopeLemmas::pushed))]
    fn statements(&mut self, ss: &'t [StmtText]) -> Result<Vec<Stmt>, Fault>
        ensures found { IfOk result (λ xs. stmts (map bare_stmt xs.items) ≡ block_in self.old ss.now) }
        ensures listed { IfOk result (λ xs. map bare_stmt xs.items ≡ body_in self.old ss.now) }
        ensures left { OnOk result (self.new ≡ after_all self.old ss.now) }
        ensures faultless { OnOk result (block_faults_in self.old ss.now ≡ []) }
        ensures refused { IfErr result (λ f. Fails f (block_faults_in self.old ss.now)) }
    {
        let mut found = Vec::new(self.alloc);
        for next in ss {
            found.push(self.statement(next)?)?;
        }
        Ok(found)
    }
}

ghost use Rattle.std.specs.Prelude.{◌≡◌, OnOk};
ghost use Rattle.pb_prog.specs.Spelling.{minimum_tokens, minimums_tokens, through_tokens, with_commas, in_order};
ghost use Rattle.pb_prog.specs.Writing.{puts, rule_in, transform_in};

use crate::print::writer::Writer;
use pb_syntax::{DeclText, RuleText, TokenKind, TransformText, sign};
use pb_values::Name;
use std::alloc::AllocError;

impl Writer {
    #[tactic(auto, unfolding(crate::specs::Spelling::minimum_tokens))]
    fn minimum(&mut self, minimum: &(Name, u64)) -> Result<(), AllocError>
        ensures { OnOk result (self.new ≡ puts self.old (minimum_tokens minimum.now)) }
    {
        self.name(&minimum.0)?;
        self.sign(sign::GREATER_OR_EQUAL)?;
        self.number(minimum.1)
    }

    #[tactic(auto, using(crate::proofs::WriterLemmas::commas_more, crate::proofs::WriterLemmas::commas_end))]
    fn some_minimums(&mut self, some_minimums: &[(Name, u64)]) -> Result<(), AllocError>
        ensures { OnOk result (self.new ≡ puts self.old (with_commas minimum_tokens some_minimums.now)) }
    {
        let mut is_first = true;
        for next in some_minimums {
            self.comma(is_first)?;
            self.minimum(next)?;
            is_first = false;
        }
        Ok(())
    }

    #[tactic(auto, using(crate::proofs::WriterLemmas::keyword_some))]
    fn minimums(&mut self, minimums: &[(Name, u64)]) -> Result<(), AllocError>
        ensures { OnOk result (self.new ≡ puts self.old (minimums_tokens minimums.now)) }
    {
        if minimums.is_empty() {
            return Ok(());
        }
        self.keyword(TokenKind::Where, b"where")?;
        self.some_minimums(minimums)
    }

    #[tactic(auto, using(crate::proofs::WriterLemmas::keyword_some))]
    fn through(&mut self, decls: &[DeclText]) -> Result<(), AllocError>
        ensures { OnOk result (self.new ≡ puts self.old (through_tokens decls.now)) }
    {
        if decls.is_empty() {
            return Ok(());
        }
        self.keyword(TokenKind::Through, b"through")?;
        self.decls(decls)
    }

    #[tactic(auto, using(crate::proofs::WriterLemmas::puts_append, crate::proofs::TreeLemmas::body_listed), unfolding(crate::specs::Spelling::rule_tokens, crate::specs::Writing::rule_in))]
    fn rule(&mut self, rule: &RuleText) -> Result<(), AllocError>
        ensures { OnOk result (self.new ≡ puts self.old (rule_in rule.now)) }
    {
        self.mark(rule.mark)?;
        self.keyword(TokenKind::To, b"to")?;
        self.sign(sign::OPEN)?;
        self.uses(&rule.outs)?;
        self.sign(sign::CLOSE)?;
        self.keyword(TokenKind::From, b"from")?;
        self.sign(sign::OPEN)?;
        self.uses(&rule.reads)?;
        self.sign(sign::CLOSE)?;
        self.conds(&rule.conds)?;
        self.block(&rule.stmts)
    }

    #[tactic(auto, using(crate::proofs::WriterLemmas::order_more))]
    fn rules(&mut self, rules: &[RuleText]) -> Result<(), AllocError>
        ensures { OnOk result (self.new ≡ puts self.old (in_order rule_in rules.now)) }
    {
        for next in rules {
            self.rule(next)?;
        }
        Ok(())
    }

    #[tactic(auto, using(crate::proofs::WriterLemmas::puts_append, crate::proofs::TreeLemmas::rules_listed), unfolding(crate::specs::Spelling::transform_tokens, crate::specs::Writing::transform_in))]
    fn transform(&mut self, transform: &TransformText) -> Result<(), AllocError>
        ensures { OnOk result (self.new ≡ puts self.old (transform_in transform.now)) }
    {
        self.keyword(TokenKind::Transform, b"transform")?;
        self.name(&transform.name)?;
        self.minimums(&transform.minimums)?;
        self.keyword(TokenKind::From, b"from")?;
        self.decls(&transform.from)?;
        self.through(&transform.through)?;
        self.keyword(TokenKind::To, b"to")?;
        self.decls(&transform.to)?;
        self.sign(sign::OPEN_BRACE)?;
        self.rules(&transform.rules)?;
        self.sign(sign::CLOSE_BRACE)
    }

    /// Puts transforms one after the other.
    #[tactic(auto, using(crate::proofs::WriterLemmas::order_more))]
    pub(crate) fn transforms(&mut self, transforms: &[TransformText]) -> Result<(), AllocError>
        ensures { OnOk result (self.new ≡ puts self.old (in_order transform_in transforms.now)) }
    {
        for next in transforms {
            self.transform(next)?;
        }
        Ok(())
    }
}

ghost use Rattle.std.specs.Prelude.{◌≡◌, OnOk};
ghost use Rattle.pb_prog.specs.Spelling.{with_commas, factor_tokens, quotient_tokens, term_tokens, sum_tokens, form_tokens, decl_tokens};
ghost use Rattle.pb_prog.specs.Writing.{puts, comma_unless, sign_unless};

use crate::print::writer::Writer;
use pb_syntax::{DeclText, FormText, TermText, sign};
use std::alloc::AllocError;

impl Writer {
    #[tactic(auto, unfolding(crate::specs::Spelling::factor_tokens))]
    fn factor(&mut self, factor: u64) -> Result<(), AllocError>
        ensures { OnOk result (self.new ≡ puts self.old (factor_tokens factor)) }
    {
        if factor == 1 {
            return Ok(());
        }
        self.number(factor)?;
        self.sign(sign::TIMES)
    }

    #[tactic(auto, unfolding(crate::specs::Spelling::quotient_tokens))]
    fn quotient(&mut self, quotient: u8) -> Result<(), AllocError>
        ensures { OnOk result (self.new ≡ puts self.old (quotient_tokens quotient)) }
    {
        if quotient == 0 {
            return Ok(());
        }
        self.sign(sign::OVER)?;
        self.number(u64::from(quotient))
    }

    #[tactic(auto, using(crate::proofs::WriterLemmas::puts_append), unfolding(crate::specs::Spelling::term_tokens))]
    fn term(&mut self, term: &TermText) -> Result<(), AllocError>
        ensures { OnOk result (self.new ≡ puts self.old (term_tokens term.now)) }
    {
        match &term.name {
            None => self.number(term.factor),
            Some(name) => {
                self.factor(term.factor)?;
                self.name(name)?;
                self.quotient(term.quotient)
            }
        }
    }

    fn term_sign(&mut self, is_first: bool, minus: bool) -> Result<(), AllocError>
        ensures { OnOk result (self.new ≡ puts self.old (sign_unless is_first minus)) }
    {
        if is_first {
            return Ok(());
        }
        if minus {
            return self.sign(sign::MINUS);
        }
        self.sign(sign::PLUS)
    }

    #[tactic(auto, using(crate::proofs::WriterLemmas::terms_more, crate::proofs::WriterLemmas::terms_end))]
    fn sum(&mut self, terms: &[TermText]) -> Result<(), AllocError>
        ensures { OnOk result (self.new ≡ puts self.old (sum_tokens terms.now)) }
    {
        let mut is_first = true;
        for next in terms {
            self.term_sign(is_first, next.minus)?;
            self.term(next)?;
            is_first = false;
        }
        Ok(())
    }

    /// Puts a form.
    #[tactic(auto, unfolding(crate::specs::Spelling::form_tokens))]
    pub(crate) fn form(&mut self, form: &FormText) -> Result<(), AllocError>
        ensures { OnOk result (self.new ≡ puts self.old (form_tokens form.now)) }
    {
        if form.minus {
            self.sign(sign::MINUS)?;
        }
        self.sum(&form.terms)
    }

    /// Puts a comma where an item isn't the first.
    pub(crate) fn comma(&mut self, is_first: bool) -> Result<(), AllocError>
        ensures { OnOk result (self.new ≡ puts self.old (comma_unless is_first)) }
    {
        if is_first {
            return Ok(());
        }
        self.sign(sign::COMMA)
    }

    /// Puts forms with commas between them.
    #[tactic(auto, using(crate::proofs::WriterLemmas::commas_more, crate::proofs::WriterLemmas::commas_end))]
    pub(crate) fn forms(&mut self, forms: &[FormText]) -> Result<(), AllocError>
        ensures { OnOk result (self.new ≡ puts self.old (with_commas form_tokens forms.now)) }
    {
        let mut is_first = true;
        for next in forms {
            self.comma(is_first)?;
            self.form(next)?;
            is_first = false;
        }
        Ok(())
    }

    #[tactic(auto, using(crate::proofs::WriterLemmas::puts_append), unfolding(crate::specs::Spelling::decl_tokens))]
    fn decl(&mut self, decl: &DeclText) -> Result<(), AllocError>
        ensures { OnOk result (self.new ≡ puts self.old (decl_tokens decl.now)) }
    {
        self.name(&decl.name)?;
        self.sign(sign::OPEN_BRACKET)?;
        self.forms(&decl.dims)?;
        self.sign(sign::CLOSE_BRACKET)
    }

    /// Puts declared matrices with commas between them.
    #[tactic(auto, using(crate::proofs::WriterLemmas::commas_more, crate::proofs::WriterLemmas::commas_end))]
    pub(crate) fn decls(&mut self, decls: &[DeclText]) -> Result<(), AllocError>
        ensures { OnOk result (self.new ≡ puts self.old (with_commas decl_tokens decls.now)) }
    {
        let mut is_first = true;
        for next in decls {
            self.comma(is_first)?;
            self.decl(next)?;
            is_first = false;
        }
        Ok(())
    }
}

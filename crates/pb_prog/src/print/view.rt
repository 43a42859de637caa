ghost use Rattle.std.specs.Prelude.{◌≡◌, [], ◌∷◌, ◌++◌, OnOk};
ghost use Rattle.pb_syntax.specs.declared.kind.TokenKind.TheVariants as k;
ghost use Rattle.pb_syntax.specs.Kinds.{word_kind};
ghost use Rattle.pb_prog.specs.Spelling.{word, sign_at, opening, comma, dot, with_commas, form_tokens, relation_sign, view_tokens, use_tokens, cond_tokens, conds_tokens, mark_tokens};
ghost use Rattle.pb_prog.specs.Writing.{puts};

use crate::print::writer::Writer;
use pb_syntax::{CondText, FormText, MarkText, Relation, TokenKind, UseText, ViewText, sign};
use std::alloc::AllocError;

fn relation_sign(relation: Relation) -> u8
    ensures { result ≡ relation_sign relation }
{
    match relation {
        Relation::Equal => sign::EQUAL,
        Relation::Unequal => sign::UNEQUAL,
        Relation::Less => sign::LESS,
        Relation::LessOrEqual => sign::LESS_OR_EQUAL,
        Relation::Greater => sign::GREATER,
        Relation::GreaterOrEqual => sign::GREATER_OR_EQUAL,
    }
}

impl Writer {
    /// Puts `<`, `<=`, `>`, `>=`, `==` or `!=`.
    #[tactic(auto, using(crate::proofs::WriterLemmas::relation_listed))]
    pub(crate) fn relation(&mut self, relation: Relation) -> Result<(), AllocError>
        ensures { OnOk result (self.new ≡ puts self.old (sign_at (relation_sign relation) ∷ [])) }
    {
        self.sign(relation_sign(relation))
    }

    /// Puts the mark of a rule.
    #[tactic(auto, using(crate::proofs::WriterLemmas::puts_append), unfolding(crate::specs::Spelling::mark_tokens))]
    pub(crate) fn mark(&mut self, mark: MarkText) -> Result<(), AllocError>
        ensures { OnOk result (self.new ≡ puts self.old (mark_tokens mark)) }
    {
        match mark {
            MarkText::Unmarked => Ok(()),
            MarkText::Primary => self.keyword(TokenKind::Primary, b"primary"),
            MarkText::Secondary => self.keyword(TokenKind::Secondary, b"secondary"),
            MarkText::Priority(number) => {
                self.keyword(TokenKind::Priority, b"priority")?;
                self.sign(sign::OPEN)?;
                self.number(number)?;
                self.sign(sign::CLOSE)
            }
        }
    }

    /// Puts `.`, the name of a member and `(`.
    pub(crate) fn member(&mut self, name: &[u8]) -> Result<(), AllocError>
        requires { word_kind name.now ≡ k.Name }
        ensures { OnOk result (self.new ≡ puts self.old (dot ∷ word name.now ∷ opening ∷ [])) }
    {
        self.sign(sign::DOT)?;
        self.keyword(TokenKind::Name, name)?;
        self.sign(sign::OPEN)
    }

    #[tactic(auto, using(crate::proofs::WriterLemmas::puts_append))]
    fn corner(&mut self, x: &FormText, y: &FormText) -> Result<(), AllocError>
        ensures { OnOk result (self.new ≡ puts self.old (form_tokens x.now ++ (comma ∷ form_tokens y.now))) }
    {
        self.form(x)?;
        self.sign(sign::COMMA)?;
        self.form(y)
    }

    #[tactic(auto, using(crate::proofs::WriterLemmas::puts_append), unfolding(crate::specs::Spelling::view_tokens))]
    fn view(&mut self, view: &ViewText) -> Result<(), AllocError>
        ensures { OnOk result (self.new ≡ puts self.old (view_tokens view.now)) }
    {
        match view {
            ViewText::Whole => Ok(()),
            ViewText::Cell { x, y: None } => {
                self.member(b"cell")?;
                self.form(x)?;
                self.sign(sign::CLOSE)
            }
            ViewText::Cell { x, y: Some(y) } => {
                self.member(b"cell")?;
                self.corner(x, y)?;
                self.sign(sign::CLOSE)
            }
            ViewText::Row(y) => {
                self.member(b"row")?;
                self.form(y)?;
                self.sign(sign::CLOSE)
            }
            ViewText::Column(x) => {
                self.member(b"column")?;
                self.form(x)?;
                self.sign(sign::CLOSE)
            }
            ViewText::Between { low, high } => {
                self.member(b"region")?;
                self.corner(low, high)?;
                self.sign(sign::CLOSE)
            }
            ViewText::Region { x0, y0, x1, y1 } => {
                self.member(b"region")?;
                self.corner(x0, y0)?;
                self.sign(sign::COMMA)?;
                self.corner(x1, y1)?;
                self.sign(sign::CLOSE)
            }
        }
    }

    #[tactic(auto, using(crate::proofs::WriterLemmas::puts_append), unfolding(crate::specs::Spelling::use_tokens))]
    fn of_use(&mut self, of: &UseText) -> Result<(), AllocError>
        ensures { OnOk result (self.new ≡ puts self.old (use_tokens of.now)) }
    {
        self.name(&of.matrix)?;
        self.view(&of.view)?;
        self.name(&of.bound)
    }

    /// Puts the views that a rule writes or reads, with commas between them.
    #[tactic(auto, using(crate::proofs::WriterLemmas::commas_more, crate::proofs::WriterLemmas::commas_end))]
    pub(crate) fn uses(&mut self, uses: &[UseText]) -> Result<(), AllocError>
        ensures { OnOk result (self.new ≡ puts self.old (with_commas use_tokens uses.now)) }
    {
        let mut is_first = true;
        for next in uses {
            self.comma(is_first)?;
            self.of_use(next)?;
            is_first = false;
        }
        Ok(())
    }

    #[tactic(auto, using(crate::proofs::WriterLemmas::puts_append), unfolding(crate::specs::Spelling::cond_tokens))]
    fn cond(&mut self, cond: &CondText) -> Result<(), AllocError>
        ensures { OnOk result (self.new ≡ puts self.old (cond_tokens cond.now)) }
    {
        self.form(&cond.left)?;
        self.relation(cond.relation)?;
        self.form(&cond.right)
    }

    #[tactic(auto, using(crate::proofs::WriterLemmas::commas_more, crate::proofs::WriterLemmas::commas_end))]
    fn some_conds(&mut self, some_conds: &[CondText]) -> Result<(), AllocError>
        ensures { OnOk result (self.new ≡ puts self.old (with_commas cond_tokens some_conds.now)) }
    {
        let mut is_first = true;
        for next in some_conds {
            self.comma(is_first)?;
            self.cond(next)?;
            is_first = false;
        }
        Ok(())
    }

    /// Puts the conditions of a rule, if it has any.
    #[tactic(auto, using(crate::proofs::WriterLemmas::keyword_some))]
    pub(crate) fn conds(&mut self, conds: &[CondText]) -> Result<(), AllocError>
        ensures { OnOk result (self.new ≡ puts self.old (conds_tokens conds.now)) }
    {
        if conds.is_empty() {
            return Ok(());
        }
        self.keyword(TokenKind::Where, b"where")?;
        self.some_conds(conds)
    }
}

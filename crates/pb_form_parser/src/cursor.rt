ghost use Rattle.std.specs.Prelude.{◌≡◌, ◌≢◌, ◌↔◌, ◌∷◌, IsTrue, IfOk, IfErr};
ghost use Rattle.std.specs.Str.{bytes_eq};
ghost use Rattle.pb_syntax.specs.Kinds.{kind_of, name_in, number_in};
ghost use Rattle.pb_syntax.specs.declared.kind.TokenKind.TheVariants.{End};
ghost use Rattle.pb_form_parser.specs.declared.fault.Fault.TheVariants.{BadSyntax, OverLimit, Memory};
ghost use Rattle.pb_grammar.specs.Next.{next_kind, next_place, word_is, next_is, Sees};
ghost use Rattle.pb_grammar.specs.Want.{token};
ghost use Rattle.pb_form_parser.specs.Leads.{Leads, Shortens};

use crate::fault::Fault;
use pb_syntax::{Item, Name, Token, TokenKind, TokenWhat, is_kind, kind_of};
use std::alloc::Global;

/// The tokens that are left, and the length of the text in bytes.
#[derive(Drop)]
pub struct Cursor<'a> {
    pub rest: &'a [Token],
    pub end: u32,
}

fn word_is(word: &[u8], token: &Token) -> bool
    ensures { result ≡ word_is word.now (kind_of token.now) token.now }
{
    match (kind_of(token), &token.what) {
        (TokenKind::Name, TokenWhat::Word(name)) => name.bytes() == word,
        _ => false,
    }
}

impl<'a> Cursor<'a> {
    /// What the next token is; `End` where none is left.
    pub fn peek(&self) -> TokenKind
        ensures { result ≡ next_kind self.now.rest.now }
    {
        match self.rest {
            [first, ..] => kind_of(first),
            [] => TokenKind::End,
        }
    }

    /// The place of the next token, or the end of the text.
    pub fn place(&self) -> u32
        ensures { result ≡ next_place self.now.end self.now.rest.now }
    {
        match self.rest {
            [first, ..] => first.at,
            [] => self.end,
        }
    }

    /// The fault of a token that fits nothing which may stand here.
    pub fn bad(&self) -> Fault
        ensures { result ≡ BadSyntax (next_place self.now.end self.now.rest.now) }
    {
        Fault::BadSyntax { at: self.place() }
    }

    /// The fault of a token that begins an item too many.
    pub fn over(&self, what: Item) -> Fault
        ensures { result ≡ OverLimit what (next_place self.now.end self.now.rest.now) }
    {
        Fault::OverLimit {
            what,
            at: self.place(),
        }
    }

    /// Whether the next token is of this kind.
    pub fn sees(&self, kind: TokenKind) -> bool
        ensures { IsTrue result ↔ Sees kind self.now.rest.now }
    {
        match self.rest {
            [first, ..] => is_kind(first, kind),
            [] => false,
        }
    }

    /// Whether the next token is this name.
    pub fn next_is(&self, word: &[u8]) -> bool
        ensures { result ≡ next_is word.now self.now.rest.now }
    {
        match self.rest {
            [first, ..] => word_is(word, first),
            [] => false,
        }
    }

    /// Consumes the next token.
    #[tactic(auto, using(crate::proofs::NextLemmas::not_end))]
    pub fn take(&mut self) -> &'a Token
        requires { next_kind self.now.rest.now ≢ End }
        ensures taken { self.old.rest.now ≡ result.now ∷ self.new.rest.now }
        ensures end { self.new.end ≡ self.old.end }
    {
        let first = &self.rest[0];
        self.rest = &self.rest[1..];
        first
    }

    /// Consumes the next token, which must be of this kind.
    #[tactic(auto, using(crate::proofs::NextLemmas::bad_kind, crate::proofs::NextLemmas::seen_kind, crate::proofs::NextLemmas::seen_next))]
    pub fn expect(&mut self, kind: TokenKind) -> Result<&'a Token, Fault>
        requires { kind ≢ End }
        ensures leads { Leads (λ t. t.now) result (token kind) self.old self.new }
        ensures shorter { Shortens result self.old self.new }
    {
        if !self.sees(kind) {
            return Err(self.bad());
        }
        Ok(self.take())
    }
}

/// The number that a token is.
pub fn number_in(token: &Token) -> u64
    ensures { result ≡ number_in token.now }
{
    match &token.what {
        TokenWhat::Number(value) => *value,
        _ => 0,
    }
}

/// A copy of the name that a token is.
pub fn name_in(alloc: Global, token: &Token) -> Result<Name, Fault>
    ensures named { IfOk result (λ n. n ≡ name_in token.now) }
    ensures memory { IfErr result (λ e. e ≡ Memory) }
{
    match &token.what {
        TokenWhat::Word(name) => Ok(Name::new(name.bytes().to_vec(alloc)?, name.at())),
        _ => Ok(Name::new(Vec::new(alloc), 0)),
    }
}

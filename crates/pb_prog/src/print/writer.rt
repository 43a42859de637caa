ghost use Rattle.std.specs.Prelude.{◌≡◌, ◌+◌, ◌≤◌, ◌<◌, ◌^◌, ◌++◌, [], None, OnOk, length};
ghost use Rattle.pb_prog.specs.Canonical.{ends_line, joins_before, joins_after, joins_both, joined, outside, indentation, space, depth_after};
ghost use Rattle.pb_syntax.specs.Kinds.{word_kind};
ghost use Rattle.pb_prog.specs.Spelling.{word, numeral, sign_at};
ghost use Rattle.pb_prog.specs.Writing.{put, put_bytes};

use itoa::Buffer;
use pb_syntax::sign::{SIGNS, sign_bytes, sign_kind};
use pb_syntax::{TokenKind, word_kind};
use pb_values::Name;
use std::alloc::{AllocError, Global};
use std::marker::Model;

/// Writes tokens one after the other: the bytes so far, how many braces are open, and the last token.
#[derive(Drop)]
pub(crate) struct Writer {
    text: Vec<u8>,
    depth: usize,
    last: Option<TokenKind>,
}

impl Model for Writer {
    ghost use Rattle.std.specs.Prelude.{◌≤◌, length};
    ghost use Rattle.pb_prog.specs.Writing.{WriterValue};

    ghost Value = { WriterValue };

    ghost view = { λ w. record { text = w.text.items; depth = w.depth; last = w.last } };

    ghost invariant = { λ w. w.depth ≤ length w.text.items };
}

fn ends_line(kind: TokenKind) -> bool
    ensures { result ≡ ends_line kind }
{
    match kind {
        TokenKind::Semicolon | TokenKind::OpenBrace | TokenKind::CloseBrace => true,
        _ => false,
    }
}

fn joins_before(kind: TokenKind) -> bool
    ensures { result ≡ joins_before kind }
{
    match kind {
        TokenKind::Comma
        | TokenKind::Semicolon
        | TokenKind::Close
        | TokenKind::CloseBracket
        | TokenKind::Dot
        | TokenKind::OpenBracket => true,
        _ => false,
    }
}

fn joins_after(kind: TokenKind) -> bool
    ensures { result ≡ joins_after kind }
{
    match kind {
        TokenKind::Open | TokenKind::OpenBracket | TokenKind::Dot => true,
        _ => false,
    }
}

fn joins_both(kind: TokenKind, next: TokenKind) -> bool
    ensures { result ≡ joins_both kind next }
{
    match (kind, next) {
        (TokenKind::Name, TokenKind::Open) => true,
        (TokenKind::Priority, TokenKind::Open) => true,
        _ => false,
    }
}

/// Whether no blank stands between two tokens of a line.
fn joined(kind: TokenKind, next: TokenKind) -> bool
    ensures { result ≡ joined kind next }
{
    if joins_after(kind) {
        return true;
    }
    if joins_before(next) {
        return true;
    }
    joins_both(kind, next)
}

fn outside(depth: usize, next: TokenKind) -> usize
    ensures { result ≡ outside depth next }
{
    match next {
        TokenKind::CloseBrace => depth.saturating_sub(1),
        _ => depth,
    }
}

fn depth_after(depth: usize, kind: TokenKind) -> usize
    requires { depth + 1 < 2 ^ 64 }
    ensures { result ≡ depth_after depth kind }
{
    match kind {
        TokenKind::OpenBrace => depth + 1,
        TokenKind::CloseBrace => depth.saturating_sub(1),
        _ => depth,
    }
}

#[tactic(auto, using(crate::proofs::WriterLemmas::indentation_more))]
fn write_indentation(text: &mut Vec<u8>, depth: usize) -> Result<(), AllocError>
    ensures written { OnOk result (text.new.items ≡ text.old.items ++ indentation depth) }
    ensures kept { length text.old.items ≤ length text.new.items }
{
    for _ in 0..depth {
        text.extend_from_slice(b"  ")?;
    }
    Ok(())
}

/// What stands before a token.
#[tactic(auto, unfolding(crate::specs::Canonical::space))]
fn write_space(
    text: &mut Vec<u8>,
    depth: usize,
    last: Option<TokenKind>,
    next: TokenKind,
) -> Result<(), AllocError>
    ensures written { OnOk result (text.new.items ≡ text.old.items ++ space depth last next) }
    ensures kept { length text.old.items ≤ length text.new.items }
{
    match last {
        None => write_indentation(text, outside(depth, next)),
        Some(kind) => {
            if ends_line(kind) {
                return write_indentation(text, outside(depth, next));
            }
            if !joined(kind, next) {
                text.push(b' ')?;
            }
            Ok(())
        }
    }
}

impl Writer {
    /// A writer of an empty text.
    pub(crate) fn new(alloc: Global) -> Writer
        ensures { result ≡ record { text = []; depth = 0; last = None } }
    {
        Writer {
            text: Vec::new(alloc),
            depth: 0,
            last: None,
        }
    }

    /// The text.
    pub(crate) fn into_text(self) -> Vec<u8>
        ensures { result.items ≡ self.text }
    {
        self.text
    }

    /// Writes a token of this kind with these bytes.
    fn put(&mut self, kind: TokenKind, bytes: &[u8]) -> Result<(), AllocError>
        ensures { OnOk result (self.new ≡ put_bytes self.old kind bytes.now) }
    {
        write_space(&mut self.text, self.depth, self.last, kind)?;
        self.text.extend_from_slice(bytes)?;
        if ends_line(kind) {
            self.text.push(b'\n')?;
        }
        self.depth = depth_after(self.depth, kind);
        self.last = Some(kind);
        Ok(())
    }

    /// Writes a keyword.
    #[tactic(auto, unfolding(crate::specs::Writing::put))]
    pub(crate) fn keyword(&mut self, kind: TokenKind, bytes: &[u8]) -> Result<(), AllocError>
        requires { word_kind bytes.now ≡ kind }
        ensures { OnOk result (self.new ≡ put self.old (word bytes.now)) }
    {
        self.put(kind, bytes)
    }

    /// Writes a name.
    #[tactic(auto, unfolding(crate::specs::Writing::put))]
    pub(crate) fn name(&mut self, name: &Name) -> Result<(), AllocError>
        ensures { OnOk result (self.new ≡ put self.old (word name.now.bytes)) }
    {
        self.put(word_kind(name), name.bytes())
    }

    /// Writes a number.
    #[tactic(auto, unfolding(crate::specs::Writing::put))]
    pub(crate) fn number(&mut self, value: u64) -> Result<(), AllocError>
        ensures { OnOk result (self.new ≡ put self.old (numeral value)) }
    {
        let mut buffer = Buffer::new();
        self.put(TokenKind::Number, buffer.format(value).as_bytes())
    }

    /// Writes the sign at this place in the list of signs.
    #[tactic(auto, unfolding(crate::specs::Writing::put))]
    pub(crate) fn sign(&mut self, place: u8) -> Result<(), AllocError>
        requires { place < SIGNS }
        ensures { OnOk result (self.new ≡ put self.old (sign_at place)) }
    {
        self.put(sign_kind(place), sign_bytes(place))
    }
}

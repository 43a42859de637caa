ghost use Rattle.std.specs.Prelude.{◌≡◌, ◌<◌, ◌≤◌, [], ◌∷◌, length, map, OnOk};
ghost use Rattle.pb_syntax.specs.Trees.{bare_rule};
ghost use Rattle.pb_syntax.specs.declared.refusal.Item.TheVariants.{Conditions, Rules};
ghost use Rattle.pb_syntax.specs.declared.kind.TokenKind.TheVariants.{To};
ghost use Rattle.pb_grammar.specs.Want.{a_use, uses, rules, reads, condition, conditions, more_conditions, relation, form, begin, after_mark, with_outs, a_sign, rule};
ghost use Rattle.pb_syntax.specs.Limits.{over};
ghost use Rattle.pb_form_parser.specs.Leads.{Leads, Shortens};

use crate::view::view_or_none;
use pb_body_parser::statements;
use pb_form_parser::{Cursor, Fault, begin_name, form, name_in, small, without};
use pb_syntax::{
    CondText, FormText, Item, MOST_CONDITIONS, MOST_RULES, MOST_VIEWS, MarkText, Relation,
    RuleText, TokenKind, UseText,
};
use std::alloc::Global;

fn one_use(
    alloc: Global,
    cursor: &mut Cursor<'_>,
    what: Item,
    before: usize,
) -> Result<UseText, Fault>
    ensures leads { Leads (λ u. u) result (a_use what before) cursor.old cursor.new }
    ensures shorter { Shortens result cursor.old cursor.new }
{
    let matrix = name_in(alloc, begin_name(cursor, MOST_VIEWS, before, what)?)?;
    let view = view_or_none(alloc, cursor)?;
    let token = match cursor.expect(TokenKind::Name) {
        Ok(token) => token,
        Err(fault) => return Err(without(view, fault)),
    };
    match name_in(alloc, token) {
        Ok(bound) => Ok(UseText {
            matrix,
            view,
            bound,
        }),
        Err(fault) => Err(without(view, fault)),
    }
}

fn uses(alloc: Global, cursor: &mut Cursor<'_>, what: Item) -> Result<Vec<UseText>, Fault>
    ensures leads { Leads (λ v. v.items) result (uses what) cursor.old cursor.new }
    ensures shorter { Shortens result cursor.old cursor.new }
{
    let mut found = Vec::new(alloc);
    found.push(one_use(alloc, cursor, what, 0)?)?;
    loop {
        match cursor.peek() {
            TokenKind::Comma => {
                cursor.take();
                let further = one_use(alloc, cursor, what, found.len())?;
                found.push(further)?;
            }
            TokenKind::Close => {
                cursor.take();
                return Ok(found);
            }
            _ => return Err(cursor.bad()),
        }
    }
}

#[tactic(auto, using(crate::proofs::RuleLemmas::some_reads))]
fn reads(alloc: Global, cursor: &mut Cursor<'_>) -> Result<Vec<UseText>, Fault>
    ensures leads { Leads (λ v. v.items) result reads cursor.old cursor.new }
    ensures shorter { Shortens result cursor.old cursor.new }
{
    match cursor.peek() {
        TokenKind::Close => {
            cursor.take();
            Ok(Vec::new(alloc))
        }
        _ => uses(alloc, cursor, Item::Reads),
    }
}

fn relation(cursor: &mut Cursor<'_>) -> Result<Relation, Fault>
    ensures leads { Leads (λ r. r) result relation cursor.old cursor.new }
    ensures shorter { Shortens result cursor.old cursor.new }
{
    match cursor.peek() {
        TokenKind::Less => {
            cursor.take();
            Ok(Relation::Less)
        }
        TokenKind::LessOrEqual => {
            cursor.take();
            Ok(Relation::LessOrEqual)
        }
        TokenKind::Greater => {
            cursor.take();
            Ok(Relation::Greater)
        }
        TokenKind::GreaterOrEqual => {
            cursor.take();
            Ok(Relation::GreaterOrEqual)
        }
        TokenKind::Equal => {
            cursor.take();
            Ok(Relation::Equal)
        }
        _ => Err(cursor.bad()),
    }
}

#[tactic(auto, using(pb_form_parser::proofs::BeginLemmas::begin_within))]
fn begin_form(alloc: Global, cursor: &mut Cursor<'_>, before: usize) -> Result<FormText, Fault>
    ensures leads { Leads (λ x. x) result (λ f. begin (over Conditions before) (form f)) cursor.old cursor.new }
    ensures shorter { Shortens result cursor.old cursor.new }
{
    if before < MOST_CONDITIONS {
        return form(alloc, cursor);
    }
    match cursor.peek() {
        TokenKind::Minus => Err(cursor.over(Item::Conditions)),
        TokenKind::Number => Err(cursor.over(Item::Conditions)),
        TokenKind::Name => Err(cursor.over(Item::Conditions)),
        _ => Err(cursor.bad()),
    }
}

fn condition(alloc: Global, cursor: &mut Cursor<'_>, before: usize) -> Result<CondText, Fault>
    ensures leads { Leads (λ c. c) result (condition before) cursor.old cursor.new }
    ensures shorter { Shortens result cursor.old cursor.new }
{
    let left = begin_form(alloc, cursor, before)?;
    let relation = relation(cursor)?;
    let right = form(alloc, cursor)?;
    Ok(CondText {
        left,
        relation,
        right,
    })
}

fn some_conditions(alloc: Global, cursor: &mut Cursor<'_>) -> Result<Vec<CondText>, Fault>
    ensures leads { Leads (λ v. v.items) result (λ f. condition 0 (λ c. more_conditions (c ∷ []) f)) cursor.old cursor.new }
    ensures shorter { Shortens result cursor.old cursor.new }
{
    let mut found = Vec::new(alloc);
    found.push(condition(alloc, cursor, 0)?)?;
    loop {
        match cursor.peek() {
            TokenKind::Comma => {
                cursor.take();
                let further = condition(alloc, cursor, found.len())?;
                found.push(further)?;
            }
            TokenKind::OpenBrace => {
                cursor.take();
                return Ok(found);
            }
            _ => return Err(cursor.bad()),
        }
    }
}

fn conditions(alloc: Global, cursor: &mut Cursor<'_>) -> Result<Vec<CondText>, Fault>
    ensures leads { Leads (λ v. v.items) result conditions cursor.old cursor.new }
    ensures shorter { Shortens result cursor.old cursor.new }
{
    match cursor.peek() {
        TokenKind::Where => {
            cursor.take();
            some_conditions(alloc, cursor)
        }
        TokenKind::OpenBrace => {
            cursor.take();
            Ok(Vec::new(alloc))
        }
        _ => Err(cursor.bad()),
    }
}

#[tactic(auto, unfolding(pb_grammar::specs::Want::after_mark))]
fn after_mark(alloc: Global, cursor: &mut Cursor<'_>, mark: MarkText) -> Result<RuleText, Fault>
    ensures leads { Leads bare_rule result (after_mark mark) cursor.old cursor.new }
    ensures shorter { Shortens result cursor.old cursor.new }
{
    cursor.expect(TokenKind::Open)?;
    let outs = uses(alloc, cursor, Item::Outputs)?;
    after_outs(alloc, cursor, mark, outs)
}

/// What stands in a rule after its outputs.
fn after_outs(
    alloc: Global,
    cursor: &mut Cursor<'_>,
    mark: MarkText,
    outs: Vec<UseText>,
) -> Result<RuleText, Fault>
    ensures leads { Leads bare_rule result (λ f. with_outs mark f outs.items) cursor.old cursor.new }
    ensures shorter { Shortens result cursor.old cursor.new }
{
    cursor.expect(TokenKind::From)?;
    cursor.expect(TokenKind::Open)?;
    let reads = reads(alloc, cursor)?;
    let conds = conditions(alloc, cursor)?;
    let mut count = 0u32;
    let stmts = statements(alloc, cursor, 1, &mut count)?;
    Ok(RuleText {
        mark,
        outs,
        reads,
        conds,
        stmts,
    })
}

fn marked(alloc: Global, cursor: &mut Cursor<'_>, mark: MarkText) -> Result<RuleText, Fault>
    ensures leads { Leads bare_rule result (λ f. a_sign To (after_mark mark f)) cursor.old cursor.new }
    ensures shorter { Shortens result cursor.old cursor.new }
{
    cursor.expect(TokenKind::To)?;
    after_mark(alloc, cursor, mark)
}

fn rule(alloc: Global, cursor: &mut Cursor<'_>) -> Result<RuleText, Fault>
    ensures leads { Leads bare_rule result rule cursor.old cursor.new }
    ensures shorter { Shortens result cursor.old cursor.new }
{
    match cursor.peek() {
        TokenKind::To => {
            cursor.take();
            after_mark(alloc, cursor, MarkText::Unmarked)
        }
        TokenKind::Primary => {
            cursor.take();
            marked(alloc, cursor, MarkText::Primary)
        }
        TokenKind::Secondary => {
            cursor.take();
            marked(alloc, cursor, MarkText::Secondary)
        }
        TokenKind::Priority => {
            cursor.take();
            cursor.expect(TokenKind::Open)?;
            let priority = small(cursor)?;
            cursor.expect(TokenKind::Close)?;
            marked(alloc, cursor, MarkText::Priority(priority))
        }
        _ => Err(cursor.bad()),
    }
}

#[tactic(auto, using(pb_form_parser::proofs::BeginLemmas::begin_within))]
fn next_rule(alloc: Global, cursor: &mut Cursor<'_>, before: usize) -> Result<RuleText, Fault>
    ensures leads { Leads bare_rule result (λ f. begin (over Rules before) (rule f)) cursor.old cursor.new }
    ensures shorter { Shortens result cursor.old cursor.new }
{
    if before < MOST_RULES {
        return rule(alloc, cursor);
    }
    match cursor.peek() {
        TokenKind::To => Err(cursor.over(Item::Rules)),
        TokenKind::Primary => Err(cursor.over(Item::Rules)),
        TokenKind::Secondary => Err(cursor.over(Item::Rules)),
        TokenKind::Priority => Err(cursor.over(Item::Rules)),
        _ => Err(cursor.bad()),
    }
}

/// The rules of a transform, and the `}` after them.
#[tactic(auto, using(crate::proofs::RuleLemmas::next_rule, crate::proofs::RuleLemmas::rules_more))]
pub fn rules(alloc: Global, cursor: &mut Cursor<'_>) -> Result<Vec<RuleText>, Fault>
    ensures leads { Leads (λ v. map bare_rule v.items) result rules cursor.old cursor.new }
    ensures shorter { Shortens result cursor.old cursor.new }
{
    let mut found = Vec::new(alloc);
    found.push(rule(alloc, cursor)?)?;
    loop {
        match cursor.peek() {
            TokenKind::CloseBrace => {
                cursor.take();
                return Ok(found);
            }
            _ => {}
        }
        let further = next_rule(alloc, cursor, found.len())?;
        found.push(further)?;
    }
}

//! The form of a line, which is a function of that line alone.

pub(crate) mod access_forms;
pub(crate) mod access_parts;
pub(crate) mod marks;

ghost use Rattle.std.specs.Prelude.{◌≡◌, option_map, IfSome, IfNone, IfOk};
ghost use Rattle.lit_read.specs.Internal.Marks.{SpellsForm, SpellsNothing, SpellsNoCheck};
ghost use Rattle.lit_read.specs.Internal.FormOfTokens.{test_line, agent_line, bytes_line, if_line, else_line, end_line};
ghost use Rattle.lit_read.specs.Internal.FormOfTokens.{frame_form, array_form, view_form, fixed_form};
ghost use Rattle.lit_read.specs.Internal.Views.{token_views, form_view, Shows};

use crate::forms::access_forms::{array_form, view_form};
use crate::forms::marks::{Mark, marks_of};
use crate::tokens::Token;
use crate::tokens::front::{
    after_sign, after_word, ended, number_of, register_of, relation_of, word_of,
};
use lit_syntax::{Symbol, View};
use std::alloc::{AllocError, Global};

/// An access, with its numbers as they stand in the text.
#[derive(Clone, Copy, Debug)]
pub enum Access {
    Load {
        reg: u8,
        view: View,
        index: u64,
        atomic: bool,
    },
    Store {
        view: View,
        index: u64,
        value: u64,
        atomic: bool,
    },
    Exchange {
        reg: u8,
        view: View,
        index: u64,
        value: u64,
    },
    CompareExchange {
        reg: u8,
        view: View,
        index: u64,
        expected: u64,
        value: u64,
    },
}

/// What a line without a condition says. Its numbers are still as they stand in the text.
#[derive(Clone, Copy, Debug)]
pub enum Form<'a> {
    Blank,
    Test(&'a str),
    Bytes(u64),
    Agent(&'a str),
    Access(Access),
    If { reg: u8, equal: bool, value: u64 },
    Else,
    End,
}

/// What a line says: a check line by the marks of its condition.
#[derive(Debug, Drop)]
pub enum Line<'a> {
    Fixed(Form<'a>),
    Check(Vec<Mark<'a>>),
}

/// `test NAME`
#[tactic(auto, unfolding(crate::specs::Internal::FormOfTokens::test_line, crate::specs::Internal::FormOfTokens::front))]
fn test_line<'a>(tokens: &[Token<'a>]) -> Option<Form<'a>>
    ensures { option_map form_view result ≡ test_line (token_views tokens.now) }
{
    let rest = after_word(tokens, "test")?;
    let (name, rest) = word_of(rest)?;
    ended(rest, Form::Test(name))
}

/// `agent NAME`
#[tactic(auto, unfolding(crate::specs::Internal::FormOfTokens::agent_line, crate::specs::Internal::FormOfTokens::front))]
fn agent_line<'a>(tokens: &[Token<'a>]) -> Option<Form<'a>>
    ensures { option_map form_view result ≡ agent_line (token_views tokens.now) }
{
    let rest = after_word(tokens, "agent")?;
    let (name, rest) = word_of(rest)?;
    ended(rest, Form::Agent(name))
}

/// `bytes NUM`
#[tactic(auto, unfolding(crate::specs::Internal::FormOfTokens::bytes_line, crate::specs::Internal::FormOfTokens::front))]
fn bytes_line<'a>(tokens: &[Token<'a>]) -> Option<Form<'a>>
    ensures { option_map form_view result ≡ bytes_line (token_views tokens.now) }
{
    let rest = after_word(tokens, "bytes")?;
    let (bytes, rest) = number_of(rest)?;
    ended(rest, Form::Bytes(bytes))
}

/// `if REG == NUM {` or `if REG != NUM {`
#[tactic(auto, unfolding(crate::specs::Internal::FormOfTokens::if_line, crate::specs::Internal::FormOfTokens::front))]
fn if_line<'a>(tokens: &[Token<'a>]) -> Option<Form<'a>>
    ensures { option_map form_view result ≡ if_line (token_views tokens.now) }
{
    let rest = after_word(tokens, "if")?;
    let (reg, rest) = register_of(rest)?;
    let (equal, rest) = relation_of(rest)?;
    let (value, rest) = number_of(rest)?;
    let rest = after_sign(rest, Symbol::OpenBrace)?;
    let form = Form::If { reg, equal, value };
    ended(rest, form)
}

/// `} else {`
#[tactic(auto, unfolding(crate::specs::Internal::FormOfTokens::else_line, crate::specs::Internal::FormOfTokens::front))]
fn else_line<'a>(tokens: &[Token<'a>]) -> Option<Form<'a>>
    ensures { option_map form_view result ≡ else_line (token_views tokens.now) }
{
    let rest = after_sign(tokens, Symbol::CloseBrace)?;
    let rest = after_word(rest, "else")?;
    let rest = after_sign(rest, Symbol::OpenBrace)?;
    ended(rest, Form::Else)
}

/// `}`
#[tactic(auto, unfolding(crate::specs::Internal::FormOfTokens::end_line, crate::specs::Internal::FormOfTokens::front))]
fn end_line<'a>(tokens: &[Token<'a>]) -> Option<Form<'a>>
    ensures { option_map form_view result ≡ end_line (token_views tokens.now) }
{
    let rest = after_sign(tokens, Symbol::CloseBrace)?;
    ended(rest, Form::End)
}

/// A line that says no access.
#[tactic(auto, unfolding(crate::specs::Internal::FormOfTokens::frame_form))]
fn frame_form<'a>(tokens: &[Token<'a>]) -> Option<Form<'a>>
    ensures { option_map form_view result ≡ frame_form (token_views tokens.now) }
{
    if let Some(form) = ended(tokens, Form::Blank) {
        return Some(form);
    }
    if let Some(form) = test_line(tokens) {
        return Some(form);
    }
    if let Some(form) = bytes_line(tokens) {
        return Some(form);
    }
    if let Some(form) = agent_line(tokens) {
        return Some(form);
    }
    if let Some(form) = if_line(tokens) {
        return Some(form);
    }
    if let Some(form) = else_line(tokens) {
        return Some(form);
    }
    end_line(tokens)
}

/// The form that takes no memory.
#[tactic(auto, unfolding(crate::specs::Internal::FormOfTokens::fixed_form))]
fn fixed_form<'a>(tokens: &[Token<'a>]) -> Option<Form<'a>>
    ensures { option_map form_view result ≡ fixed_form (token_views tokens.now) }
{
    if let Some(form) = frame_form(tokens) {
        return Some(form);
    }
    if let Some(form) = array_form(tokens) {
        return Some(form);
    }
    view_form(tokens)
}

/// `check COND`
fn check_line<'a>(alloc: Global, tokens: &[Token<'a>]) -> Result<Option<Line<'a>>, AllocError>
    ensures found { IfOk result (λ o. IfSome o (λ line. SpellsForm (token_views tokens.now) (Shows line))) }
    ensures absent { IfOk result (λ o. IfNone o (SpellsNoCheck (token_views tokens.now))) }
{
    let Some(rest) = after_word(tokens, "check") else {
        return Ok(None);
    };
    match marks_of(alloc, rest)? {
        Some(marks) => Ok(Some(Line::Check(marks))),
        None => Ok(None),
    }
}

/// The form that these tokens spell, if there is one.
pub fn form_of<'a>(alloc: Global, tokens: &[Token<'a>]) -> Result<Option<Line<'a>>, AllocError>
    ensures found { IfOk result (λ o. IfSome o (λ line. SpellsForm (token_views tokens.now) (Shows line))) }
    ensures absent { IfOk result (λ o. IfNone o (SpellsNothing (token_views tokens.now))) }
{
    match fixed_form(tokens) {
        Some(form) => Ok(Some(Line::Fixed(form))),
        None => check_line(alloc, tokens),
    }
}

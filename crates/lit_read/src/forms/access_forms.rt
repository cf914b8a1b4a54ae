//! The forms of a line that is an access.

ghost use Rattle.std.specs.Prelude.{◌≡◌, option_map};
ghost use Rattle.lit_syntax.specs.Litmus.{window_of};
ghost use Rattle.lit_read.specs.Internal.FormOfTokens.{plain_load, plain_store, atomic_load, atomic_store, exchange, compare_exchange};
ghost use Rattle.lit_read.specs.Internal.FormOfTokens.{byte_load, byte_store, wide_load, wide_store, array_form, view_form};
ghost use Rattle.lit_read.specs.Internal.Views.{token_views, form_view};

use crate::forms::access_parts::{
    argument, atomic_call, closed, element, given_to, little_endian, stored, view_call,
};
use crate::forms::{Access, Form};
use crate::tokens::Token;
use crate::tokens::front::ended;
use lit_syntax::View;

/// `REG = VIEW[NUM]`
#[tactic(auto, unfolding(crate::specs::Internal::FormOfTokens::plain_load))]
fn plain_load<'a>(tokens: &[Token<'a>]) -> Option<Form<'a>>
    ensures { option_map form_view result ≡ plain_load (token_views tokens.now) }
{
    let (reg, rest) = given_to(tokens)?;
    let (view, index, rest) = element(rest)?;
    let access = Access::Load {
        reg,
        view,
        index,
        atomic: false,
    };
    ended(rest, Form::Access(access))
}

/// `VIEW[NUM] = NUM`
#[tactic(auto, unfolding(crate::specs::Internal::FormOfTokens::plain_store))]
fn plain_store<'a>(tokens: &[Token<'a>]) -> Option<Form<'a>>
    ensures { option_map form_view result ≡ plain_store (token_views tokens.now) }
{
    let (view, index, rest) = element(tokens)?;
    let (value, rest) = stored(rest)?;
    let access = Access::Store {
        view,
        index,
        value,
        atomic: false,
    };
    ended(rest, Form::Access(access))
}

/// `REG = Atomics.load(VIEW, NUM)`
#[tactic(auto, unfolding(crate::specs::Internal::FormOfTokens::atomic_load))]
fn atomic_load<'a>(tokens: &[Token<'a>]) -> Option<Form<'a>>
    ensures { option_map form_view result ≡ atomic_load (token_views tokens.now) }
{
    let (reg, rest) = given_to(tokens)?;
    let (view, index, rest) = atomic_call(rest, "load")?;
    let rest = closed(rest)?;
    let access = Access::Load {
        reg,
        view,
        index,
        atomic: true,
    };
    ended(rest, Form::Access(access))
}

/// `Atomics.store(VIEW, NUM, NUM)`
#[tactic(auto, unfolding(crate::specs::Internal::FormOfTokens::atomic_store))]
fn atomic_store<'a>(tokens: &[Token<'a>]) -> Option<Form<'a>>
    ensures { option_map form_view result ≡ atomic_store (token_views tokens.now) }
{
    let (view, index, rest) = atomic_call(tokens, "store")?;
    let (value, rest) = argument(rest)?;
    let rest = closed(rest)?;
    let access = Access::Store {
        view,
        index,
        value,
        atomic: true,
    };
    ended(rest, Form::Access(access))
}

/// `REG = Atomics.exchange(VIEW, NUM, NUM)`
#[tactic(auto, unfolding(crate::specs::Internal::FormOfTokens::exchange))]
fn exchange<'a>(tokens: &[Token<'a>]) -> Option<Form<'a>>
    ensures { option_map form_view result ≡ exchange (token_views tokens.now) }
{
    let (reg, rest) = given_to(tokens)?;
    let (view, index, rest) = atomic_call(rest, "exchange")?;
    let (value, rest) = argument(rest)?;
    let rest = closed(rest)?;
    let access = Access::Exchange {
        reg,
        view,
        index,
        value,
    };
    ended(rest, Form::Access(access))
}

/// `REG = Atomics.compareExchange(VIEW, NUM, NUM, NUM)`
#[tactic(auto, unfolding(crate::specs::Internal::FormOfTokens::compare_exchange))]
fn compare_exchange<'a>(tokens: &[Token<'a>]) -> Option<Form<'a>>
    ensures { option_map form_view result ≡ compare_exchange (token_views tokens.now) }
{
    let (reg, rest) = given_to(tokens)?;
    let (view, index, rest) = atomic_call(rest, "compareExchange")?;
    let (expected, rest) = argument(rest)?;
    let (value, rest) = argument(rest)?;
    let rest = closed(rest)?;
    let access = Access::CompareExchange {
        reg,
        view,
        index,
        expected,
        value,
    };
    ended(rest, Form::Access(access))
}

/// `REG = DV.getUint8(NUM)`
#[tactic(auto, unfolding(crate::specs::Internal::FormOfTokens::byte_load))]
fn byte_load<'a>(tokens: &[Token<'a>]) -> Option<Form<'a>>
    ensures { option_map form_view result ≡ byte_load (token_views tokens.now) }
{
    let (reg, rest) = given_to(tokens)?;
    let (index, rest) = view_call(rest, "getUint8")?;
    let rest = closed(rest)?;
    let access = Access::Load {
        reg,
        view: View::D8,
        index,
        atomic: false,
    };
    ended(rest, Form::Access(access))
}

/// `DV.setUint8(NUM, NUM)`
#[tactic(auto, unfolding(crate::specs::Internal::FormOfTokens::byte_store))]
fn byte_store<'a>(tokens: &[Token<'a>]) -> Option<Form<'a>>
    ensures { option_map form_view result ≡ byte_store (token_views tokens.now) }
{
    let (index, rest) = view_call(tokens, "setUint8")?;
    let (value, rest) = argument(rest)?;
    let rest = closed(rest)?;
    let access = Access::Store {
        view: View::D8,
        index,
        value,
        atomic: false,
    };
    ended(rest, Form::Access(access))
}

/// `REG = DV.NAME(NUM, true)`
#[tactic(auto, unfolding(crate::specs::Internal::FormOfTokens::wide_load))]
fn wide_load<'a>(tokens: &[Token<'a>], name: &str, view: View) -> Option<Form<'a>>
    ensures { option_map form_view result ≡ wide_load name.now (window_of view) (token_views tokens.now) }
{
    let (reg, rest) = given_to(tokens)?;
    let (index, rest) = view_call(rest, name)?;
    let rest = little_endian(rest)?;
    let access = Access::Load {
        reg,
        view,
        index,
        atomic: false,
    };
    ended(rest, Form::Access(access))
}

/// `DV.NAME(NUM, NUM, true)`
#[tactic(auto, unfolding(crate::specs::Internal::FormOfTokens::wide_store))]
fn wide_store<'a>(tokens: &[Token<'a>], name: &str, view: View) -> Option<Form<'a>>
    ensures { option_map form_view result ≡ wide_store name.now (window_of view) (token_views tokens.now) }
{
    let (index, rest) = view_call(tokens, name)?;
    let (value, rest) = argument(rest)?;
    let rest = little_endian(rest)?;
    let access = Access::Store {
        view,
        index,
        value,
        atomic: false,
    };
    ended(rest, Form::Access(access))
}

/// An access through a typed array.
#[tactic(auto, unfolding(crate::specs::Internal::FormOfTokens::array_form))]
pub fn array_form<'a>(tokens: &[Token<'a>]) -> Option<Form<'a>>
    ensures { option_map form_view result ≡ array_form (token_views tokens.now) }
{
    if let Some(form) = plain_load(tokens) {
        return Some(form);
    }
    if let Some(form) = plain_store(tokens) {
        return Some(form);
    }
    if let Some(form) = atomic_load(tokens) {
        return Some(form);
    }
    if let Some(form) = atomic_store(tokens) {
        return Some(form);
    }
    if let Some(form) = exchange(tokens) {
        return Some(form);
    }
    compare_exchange(tokens)
}

/// An access through the DataView.
#[tactic(auto, unfolding(crate::specs::Internal::FormOfTokens::view_form))]
pub fn view_form<'a>(tokens: &[Token<'a>]) -> Option<Form<'a>>
    ensures { option_map form_view result ≡ view_form (token_views tokens.now) }
{
    if let Some(form) = byte_load(tokens) {
        return Some(form);
    }
    if let Some(form) = wide_load(tokens, "getUint16", View::D16) {
        return Some(form);
    }
    if let Some(form) = wide_load(tokens, "getUint32", View::D32) {
        return Some(form);
    }
    if let Some(form) = byte_store(tokens) {
        return Some(form);
    }
    if let Some(form) = wide_store(tokens, "setUint16", View::D16) {
        return Some(form);
    }
    wide_store(tokens, "setUint32", View::D32)
}

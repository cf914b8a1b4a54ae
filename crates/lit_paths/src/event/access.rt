//! The event of an access.

ghost use Rattle.std.specs.Prelude.{◌≡◌, not, Some, if◌then◌else◌};
ghost use Rattle.lit_syntax.specs.Syntax.{window_size, is_data_view as is_view};
ghost use Rattle.lit_syntax.specs.Litmus.{window_of};
ghost use Rattle.lit_paths.specs.Path.{first_byte as first_of, payload_of};
ghost use Rattle.lit_paths.specs.Internal.Walks.{IsAccess};

use crate::event::{Event, Kind, Order3};
use lit_syntax::View;

/// How many bytes an access has.
fn size(view: View) -> u8
    ensures { result ≡ window_size (window_of view) }
{
    match view {
        View::U8 | View::D8 => 1,
        View::U16 | View::D16 => 2,
        View::U32 | View::D32 => 4,
    }
}

/// Whether an access is a DataView call.
fn is_data_view(view: View) -> bool
    ensures { result ≡ is_view (window_of view) }
{
    match view {
        View::U8 | View::U16 | View::U32 => false,
        View::D8 | View::D16 | View::D32 => true,
    }
}

/// The first byte of an access, from the block's start.
fn first_byte(view: View, index: u8) -> u8
    requires { IsAccess (window_of view) index }
    ensures { result ≡ first_of (window_of view) index }
{
    match view {
        View::U8 | View::D8 | View::D16 | View::D32 => index,
        View::U16 => 2 * index,
        View::U32 => 4 * index,
    }
}

/// The order of an access.
fn order(atomic: bool) -> Order3
    ensures { result ≡ (if atomic then Order3.SeqCst else Order3.Unordered) }
{
    if atomic {
        Order3::SeqCst
    } else {
        Order3::Unordered
    }
}

/// An access: whose it is, and how it sees the block.
#[derive(Clone, Copy)]
pub(crate) struct Access {
    pub owner: u8,
    pub view: View,
    pub index: u8,
}

/// The event of an access at a place, with what it stores, or 0 where it stores nothing.
pub(crate) fn event_of(access: Access, place: u8, kind: Kind, atomic: bool, value: u32) -> Event
    requires { IsAccess (window_of access.view) access.index }
    ensures { result ≡ record {
      kind = kind;
      order = if atomic then Order3.SeqCst else Order3.Unordered;
      no_tear = not (is_view (window_of access.view));
      first = first_of (window_of access.view) access.index;
      size = window_size (window_of access.view);
      payload = payload_of value;
      owner = Some access.owner;
      place = place;
    } }
{
    Event {
        kind,
        order: order(atomic),
        no_tear: !is_data_view(access.view),
        first: first_byte(access.view, access.index),
        size: size(access.view),
        payload: value.to_le_bytes(),
        owner: Some(access.owner),
        place,
    }
}

// The calls of pinebuckle for C, exported under the names that include/pinebuckle.h declares. Each is the library's own of that name, and promises what that one
// does. For C numbers are 64 bits, and a slice is a pointer and a count of elements.

#![tactic(auto)]

ghost use Rattle.rows.specs.Memory.{at_entry, at_exit};
ghost use Rattle.pinebuckle.specs.Calls.{CBeginContract, CFeedContract, CEndContract, CReadContract, CWriteContract, CTextContract, CMillisContract};

use pinebuckle::{Coded, Instant, Place, State};

// `begin`.
#[unsafe(no_mangle)]
pub extern "C" fn pb_begin(
    state: &mut State,
    rows: &mut [usize],
    store: &mut [u8],
    strings: &mut [usize],
    objects: &mut [usize],
    traits: &mut [usize],
    names: &mut [usize],
) -> Coded
    ensures { CBeginContract result state.new (at_exit rows store strings objects traits names) (at_entry rows store strings objects traits names) }
{
    pinebuckle::pb_begin(state, rows, store, strings, objects, traits, names)
}

// `feed`.
#[unsafe(no_mangle)]
pub extern "C" fn pb_feed(
    state: &mut State,
    rows: &mut [usize],
    store: &mut [u8],
    strings: &mut [usize],
    objects: &mut [usize],
    traits: &mut [usize],
    names: &mut [usize],
    piece: &[u8],
) -> Coded
    ensures { CFeedContract result state.new (at_exit rows store strings objects traits names)
        state.old (at_entry rows store strings objects traits names) piece.now }
{
    pinebuckle::pb_feed(state, rows, store, strings, objects, traits, names, piece)
}

// `end`.
#[unsafe(no_mangle)]
pub extern "C" fn pb_end(
    state: &mut State,
    rows: &mut [usize],
    store: &mut [u8],
    strings: &mut [usize],
    objects: &mut [usize],
    traits: &mut [usize],
    names: &mut [usize],
) -> Coded
    ensures { CEndContract result state.new (at_exit rows store strings objects traits names)
        state.old (at_entry rows store strings objects traits names) }
{
    pinebuckle::pb_end(state, rows, store, strings, objects, traits, names)
}

// `read`.
#[unsafe(no_mangle)]
pub extern "C" fn pb_read(
    rows: &mut [usize],
    store: &mut [u8],
    strings: &mut [usize],
    objects: &mut [usize],
    traits: &mut [usize],
    names: &mut [usize],
    message: &[u8],
) -> Coded
    ensures { CReadContract result (at_exit rows store strings objects traits names) (at_entry rows store strings objects traits names) message.now }
{
    pinebuckle::pb_read(rows, store, strings, objects, traits, names, message)
}

// `write`.
#[unsafe(no_mangle)]
pub extern "C" fn pb_write(rows: &[usize], store: &[u8], out: &mut [u8]) -> Coded
    ensures { CWriteContract result out.new rows.now store.now out.old }
{
    pinebuckle::pb_write(rows, store, out)
}

// Where the text of a row stands in the store.
#[unsafe(no_mangle)]
pub extern "C" fn pb_text(rows: &[usize], store: &[u8], row: usize) -> Place
    ensures { CTextContract result rows.now store.now row }
{
    pinebuckle::pb_text(rows, store, row)
}

// `millis`.
#[unsafe(no_mangle)]
pub extern "C" fn pb_millis(rows: &[usize], store: &[u8], row: usize) -> Instant
    ensures { CMillisContract result rows.now store.now row }
{
    pinebuckle::pb_millis(rows, store, row)
}

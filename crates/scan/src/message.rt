// The bytes and numbers of a message, from a cursor on.
ghost use Rattle.std.specs.Prelude.{◌≡◌, ◌&&◌, ◌+◌, ◌^◌, ◌<◌, IfOk, leb, length};
ghost use Rattle.rows.specs.Memory.{Memory, message_limit};
ghost use Rattle.decide.specs.Outcomes.{out_of};
ghost use Rattle.format.specs.Reading as r;
ghost use Rattle.scan.specs.Reads.{result as result_of, reads, last_place, short_at, within_of, moved_to};

use format::{Refusal, refusals};
use rows::{Cursor, MESSAGE_LIMIT};

// Where a message of so many bytes ends for a reading at a place.
fn last_place(len: usize, at: usize) -> usize
    ensures { result ≡ last_place len at }
{
    if len <= at || MESSAGE_LIMIT <= at {
        return at;
    }
    if len <= MESSAGE_LIMIT {
        len
    } else {
        MESSAGE_LIMIT
    }
}

// No byte is left: 2 at the message's end, 11 at the limit.
pub fn short(len: usize, at: usize) -> Refusal
    ensures { result ≡ short_at len at }
{
    let place = last_place(len, at);
    let number = if place < len {
        refusals::TOO_LONG
    } else {
        refusals::UNEXPECTED_END
    };
    Refusal {
        number,
        told: 0,
        place,
    }
}

// So many bytes more are there, and within the limit.
pub fn here(len: usize, at: usize, n: usize) -> bool
    ensures { result ≡ (leb (at + n) len && leb (at + n) message_limit) }
{
    wire::fits(len, at, n) && wire::fits(MESSAGE_LIMIT, at, n)
}

// The cursor at a later place.
fn moved(c: Cursor, at: usize) -> Cursor
    ensures { result ≡ moved_to c at }
{
    Cursor { at, ..c }
}

// The next byte, and the cursor behind it.
pub fn byte(message: &[u8], c: Cursor) -> Result<(usize, Cursor), Refusal>
    ensures { (m : Memory) → result_of (out_of result) m message.now ≡ reads r.byte m c message.now }
{
    let at = c.at;
    if here(message.len(), at, 1) {
        return Ok((message[at] as usize, moved(c, at + 1)));
    }
    Err(short(message.len(), at))
}

// The number that was read from the message at the cursor, with the cursor behind it, if it lies within the limit.
fn within(len: usize, c: Cursor, read: Option<(usize, usize)>) -> Result<(usize, Cursor), Refusal>
    ensures { result ≡ within_of len c read }
{
    let Some((n, next)) = read else {
        return Err(short(len, c.at));
    };
    if next <= MESSAGE_LIMIT {
        return Ok((n, moved(c, next)));
    }
    Err(short(len, c.at))
}

// A U29, and the cursor behind it.
pub fn word(message: &[u8], c: Cursor) -> Result<(usize, Cursor), Refusal>
    ensures { ((m : Memory) → result_of (out_of result) m message.now ≡ reads (r.u29 3 0) m c message.now) × IfOk result (λ p. p.0 < 2 ^ 29) }
{
    within(message.len(), c, wire::read_u29(message, c.at))
}

// Eight bytes, and the cursor behind them.
pub fn eight(message: &[u8], c: Cursor) -> Result<(usize, Cursor), Refusal>
    ensures { (m : Memory) → result_of (out_of result) m message.now ≡ reads (r.number 7 0) m c message.now }
{
    within(message.len(), c, wire::read_be64(message, c.at))
}

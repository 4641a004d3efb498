// The text test of RFC 3629: a machine that takes one byte, its fold over a piece, and the verdict over a whole text. It moves by the two tables of tables.rt; only
// a plain byte between characters, which stays there, is passed over without them. The states are those of specs/States.antt. Who stands above cites the contracts of
// `step`, `run` and `valid`, and not how a step is taken.

#![tactic(auto)]

mod tables;

ghost use Rattle.std.specs.Prelude.{◌≡◌, ◌≤◌, ◌<◌, length, drop};
ghost use Rattle.utf8.specs.Grammar.{valid_text};
ghost use Rattle.utf8.specs.States.{text_broken, step_of, fold_of};
ghost use Rattle.utf8.specs.Tables.{line_width, at_octet, looked_up};

use tables::{CLASSES, Classes, LINE, MOVES, Moves};

// The state between characters.
const BETWEEN: usize = 0;

// The state after a byte that no text has there, the last of all.
pub const BROKEN: usize = 8;

// The first byte that is no character by itself. Those before it are plain, class 0: between characters they move to there, so that nothing is looked up.
const PAST_PLAIN: u8 = 0x80;

// The move by the tables in hand, two lookups: the byte's class, then the state's move for it.
fn moved(c: &Classes, m: &Moves, k: usize, b: u8) -> usize
    requires { (k ≤ text_broken) × (at_octet 0 c.now b < line_width) }
    ensures { result ≡ looked_up c.now m.now k b }
{
    let octet = usize::from(b);
    let class = usize::from(c[octet / LINE][octet % LINE]);
    usize::from(m[k][class])
}

// How many plain bytes stand first, between characters; from any other state none. What is left leads to the same state, so a plain piece needs no table.
fn plain(k: usize, s: &[u8]) -> usize
    ensures { (result ≤ length s.now) × (fold_of k (drop result s.now) ≡ fold_of k s.now) }
{
    if k != BETWEEN {
        return 0;
    }
    s.iter().position(|b| PAST_PLAIN <= *b).unwrap_or(s.len())
}

// The state after what is left of a piece. No other function names the tables, and this one does before its loop.
fn run_on(k: usize, rest: &[u8]) -> usize
    requires { k ≤ text_broken }
    ensures { result ≡ fold_of k rest.now }
{
    let c = CLASSES;
    let m = MOVES;
    let mut at = k;
    for b in rest {
        if at == BETWEEN && *b < PAST_PLAIN {
            continue;
        }
        at = moved(&c, &m, at, *b);
    }
    at
}

// The state after one byte, a piece of one. A number above the last state is as broken.
pub fn step(k: usize, b: u8) -> usize
    ensures { result ≡ step_of k b }
{
    if k == BETWEEN && b < PAST_PLAIN {
        return BETWEEN;
    }
    if BROKEN < k {
        return BROKEN;
    }
    run_on(k, &[b])
}

// The state after a piece.
pub fn run(k: usize, s: &[u8]) -> usize
    ensures { result ≡ fold_of k s.now }
{
    let from = plain(k, s);
    if s.len() <= from {
        return k;
    }
    if k <= BROKEN {
        return run_on(k, &s[from..]);
    }
    BROKEN
}

// Whether a whole slice is valid text.
pub fn valid(s: &[u8]) -> bool
    ensures { result ≡ valid_text s.now }
{
    run(BETWEEN, s) == BETWEEN
}

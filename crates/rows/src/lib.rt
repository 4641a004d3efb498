// What a reading holds beside the six loans, and the parts of a row: plain numbers, by value.

#![tactic(auto)]

pub mod columns;
pub mod kinds;
mod lent;
pub mod loans;

ghost use Rattle.std.specs.Prelude.{◌≡◌, ◌&&◌, ◌+◌, ◌≤◌, ◌/◌, leb, ltb, length};
ghost use Rattle.std.proofs.lemmas.List.Edits.{sets};
ghost use Rattle.rows.specs.Memory.{row_width, put_row, col, key_at, body_at, row_at, key_of};

pub use lent::{Lent, Loans, Table};

// ---- limits: bytes of a message, values open at once, entries of each loan

pub const MESSAGE_LIMIT: usize = 262144;

pub const OPEN_LIMIT: usize = 64;

pub const ROWS_MOST: usize = 16384;

pub const STORE_MOST: usize = 65536;

pub const STRINGS_MOST: usize = 4096;

pub const OBJECTS_MOST: usize = 4096;

pub const TRAITS_MOST: usize = 256;

pub const NAMES_MOST: usize = 4096;

// ---- numbers per entry, and their places in it

pub const ROW_WIDTH: usize = 12;

pub const SPAN_WIDTH: usize = 2;

pub const SPAN_SIZE: usize = 1;

pub const TRAIT_WIDTH: usize = 5;

pub const TRAIT_SIZE: usize = 1;

pub const TRAIT_DYNAMIC: usize = 2;

pub const TRAIT_FIRST: usize = 3;

pub const TRAIT_COUNT: usize = 4;

// The bytes taken, and how many entries of each loan are used. The default: nothing taken and nothing used.
#[repr(C)]
#[derive(Clone, Copy, PartialEq, Eq, Default)]
pub struct Cursor {
    pub at: usize,
    pub rows: usize,
    pub store: usize,
    pub strings: usize,
    pub objects: usize,
    pub traits: usize,
    pub names: usize,
}

// A part of the byte store.
#[repr(C)]
#[derive(Clone, Copy, PartialEq, Eq, Default)]
pub struct Span {
    pub begin: usize,
    pub size: usize,
}

// The key of a row: mark 0, the default, is none.
#[derive(Clone, Copy, PartialEq, Eq, Default)]
pub struct Key {
    pub mark: usize,
    pub begin: usize,
    pub size: usize,
}

// An entry of the traits: the class, whether it is dynamic, its first name in the names, how many there are.
#[repr(C)]
#[derive(Clone, Copy, PartialEq, Eq, Default)]
pub struct Trait {
    pub begin: usize,
    pub size: usize,
    pub dynamic: usize,
    pub first: usize,
    pub count: usize,
}

// A row's columns.
#[derive(Clone, Copy, PartialEq, Eq, Default)]
pub struct Row {
    pub kind: usize,
    pub key: Key,
    pub body: Span,
    pub class: usize,
    pub flag: usize,
    pub number: usize,
    pub count: usize,
    pub count2: usize,
    pub end: usize,
}

// A key of which the span is the text.
impl From<Span> for Key {
    ghost from_gives = { λ s k. k ≡ key_of s };

    fn from(s: Span) -> Key
        ensures { result ≡ key_of s }
    {
        Key {
            mark: 1,
            begin: s.begin,
            size: s.size,
        }
    }
}

// `bytes` to `dst`, from `at` on. By a loop: `copy_from_slice` is a call of `memmove`, which C callers would have to bring, and slower for a few bytes.
pub fn copy(dst: &mut [u8], at: usize, bytes: &[u8])
    requires { at + length bytes.now ≤ length dst.old }
    ensures { dst.new ≡ sets dst.old at bytes.now }
{
    for i in 0..bytes.len() {
        dst[at + i] = bytes[i];
    }
}

// ---- rows

// The row is used, and lent.
pub fn row_used(len: usize, used: usize, row: usize) -> bool
    ensures { result ≡ (ltb row used && leb used (len / row_width)) }
{
    row < used && used <= len / ROW_WIDTH
}

// The row's columns, where it is lent; else nothing changes.
pub fn put_row(rows: &mut [usize], row: usize, v: Row)
    ensures { rows.new ≡ put_row rows.old row v }
{
    if row < rows.len() / ROW_WIDTH {
        let i = row * ROW_WIDTH;
        rows[i] = v.kind;
        rows[i + columns::KEY_MARK] = v.key.mark;
        rows[i + columns::KEY_BEGIN] = v.key.begin;
        rows[i + columns::KEY_SIZE] = v.key.size;
        rows[i + columns::BODY_BEGIN] = v.body.begin;
        rows[i + columns::BODY_SIZE] = v.body.size;
        rows[i + columns::CLASS_MARK] = v.class;
        rows[i + columns::FLAG] = v.flag;
        rows[i + columns::NUMBER] = v.number;
        rows[i + columns::COUNT] = v.count;
        rows[i + columns::COUNT2] = v.count2;
        rows[i + columns::END] = v.end;
    }
}

// A column of a row, 0 where the row is not there.
pub fn column(rows: &[usize], row: usize, c: usize) -> usize
    ensures { result ≡ col rows.now row c }
{
    if row < rows.len() / ROW_WIDTH {
        let at = row * ROW_WIDTH;
        if c < rows.len() - at {
            return rows[at + c];
        }
    }
    0
}

// ---- rows as they are read

// The key of a row.
pub fn key_at(rows: &[usize], row: usize) -> Key
    ensures { result ≡ key_at rows.now row }
{
    Key {
        mark: column(rows, row, columns::KEY_MARK),
        begin: column(rows, row, columns::KEY_BEGIN),
        size: column(rows, row, columns::KEY_SIZE),
    }
}

// The body of a row, or its class.
pub fn body_at(rows: &[usize], row: usize) -> Span
    ensures { result ≡ body_at rows.now row }
{
    Span {
        begin: column(rows, row, columns::BODY_BEGIN),
        size: column(rows, row, columns::BODY_SIZE),
    }
}

// A whole row, zero where it is not there.
pub fn get_row(rows: &[usize], row: usize) -> Row
    ensures { result ≡ row_at rows.now row }
{
    Row {
        kind: column(rows, row, columns::KIND),
        key: key_at(rows, row),
        body: body_at(rows, row),
        class: column(rows, row, columns::CLASS_MARK),
        flag: column(rows, row, columns::FLAG),
        number: column(rows, row, columns::NUMBER),
        count: column(rows, row, columns::COUNT),
        count2: column(rows, row, columns::COUNT2),
        end: column(rows, row, columns::END),
    }
}

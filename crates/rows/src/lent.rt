// What a call is lent: the six loans of a reading, rows with their store, and the lengths of either. Refusal 1 names the lowest faulty loan.
ghost use Rattle.std.specs.Prelude.{◌≡◌, not, ◌||◌, ◌<◌, ◌%◌, ltb, eqb, length};
ghost use Rattle.rows.specs.Memory.{col, key_at, body_at, rows_fault, zeroed};
ghost use Rattle.rows.specs.Lent.{lent_of, memory_of, SameLoans, named_loan, fault_in};

use crate::{
    Key, NAMES_MOST, OBJECTS_MOST, ROW_WIDTH, ROWS_MOST, SPAN_WIDTH, STORE_MOST, STRINGS_MOST,
    Span, TRAIT_WIDTH, TRAITS_MOST, loans,
};

// The lengths of the six loans.
#[repr(C)]
#[derive(Clone, Copy, PartialEq, Eq, Default)]
pub struct Lent {
    pub rows: usize,
    pub store: usize,
    pub strings: usize,
    pub objects: usize,
    pub traits: usize,
    pub names: usize,
}

// A loan of `n` numbers, `width` to an entry, is longer than `most` entries or not whole entries.
fn faulty(n: usize, width: usize, most: usize) -> bool
    requires { 0 < width }
    ensures { result ≡ (ltb most n || not (eqb (n % width) 0)) }
{
    most < n || n % width != 0
}

impl Lent {
    // The loan that refusal 1 names: the lowest faulty one, if there is one.
    pub fn fault(self) -> Option<usize>
        ensures { result ≡ fault_in self }
    {
        if faulty(self.rows, ROW_WIDTH, ROWS_MOST * ROW_WIDTH) {
            return Some(loans::ROWS);
        }
        if faulty(self.store, 1, STORE_MOST) {
            return Some(loans::STORE);
        }
        if faulty(self.strings, SPAN_WIDTH, STRINGS_MOST * SPAN_WIDTH) {
            return Some(loans::STRINGS);
        }
        if faulty(self.objects, 1, OBJECTS_MOST) {
            return Some(loans::OBJECTS);
        }
        if faulty(self.traits, TRAIT_WIDTH, TRAITS_MOST * TRAIT_WIDTH) {
            return Some(loans::TRAITS);
        }
        if faulty(self.names, SPAN_WIDTH, NAMES_MOST * SPAN_WIDTH) {
            return Some(loans::NAMES);
        }
        None
    }
}

// The six loans of a reading.
#[derive(Drop)]
pub struct Loans<'a> {
    pub rows: &'a mut [usize],
    pub store: &'a mut [u8],
    pub strings: &'a mut [usize],
    pub objects: &'a mut [usize],
    pub traits: &'a mut [usize],
    pub names: &'a mut [usize],
}

impl Loans<'_> {
    // Their lengths.
    pub fn lent(&self) -> Lent
        ensures { result ≡ lent_of (memory_of self.now) }
    {
        Lent {
            rows: self.rows.len(),
            store: self.store.len(),
            strings: self.strings.len(),
            objects: self.objects.len(),
            traits: self.traits.len(),
            names: self.names.len(),
        }
    }

    // Sets every loan to zero.
    pub fn clear(&mut self)
        ensures { (memory_of self.new ≡ zeroed (memory_of self.old)) × SameLoans self.old self.new }
    {
        self.rows.fill(0);
        self.store.fill(0);
        self.strings.fill(0);
        self.objects.fill(0);
        self.traits.fill(0);
        self.names.fill(0);
    }
}

// Rows and the store that their spans lie in, lent to be read.
#[derive(Clone, Copy)]
pub struct Table<'r, 's> {
    pub rows: &'r [usize],
    pub store: &'s [u8],
}

impl Table<'_, '_> {
    // The loan that refusal 1 names, if there is one.
    pub fn fault(self) -> Option<usize>
        ensures { result ≡ named_loan (rows_fault self.entry.rows.now self.entry.store.now) }
    {
        let lent = Lent {
            rows: self.rows.len(),
            store: self.store.len(),
            ..Lent::default()
        };
        lent.fault()
    }

    // A column of a row, 0 where the row is not there.
    pub fn column(self, row: usize, c: usize) -> usize
        ensures { result ≡ col self.entry.rows.now row c }
    {
        crate::column(self.rows, row, c)
    }

    // The key of a row.
    pub fn key(self, row: usize) -> Key
        ensures { result ≡ key_at self.entry.rows.now row }
    {
        crate::key_at(self.rows, row)
    }

    // The body of a row, or its class.
    pub fn body(self, row: usize) -> Span
        ensures { result ≡ body_at self.entry.rows.now row }
    {
        crate::body_at(self.rows, row)
    }
}

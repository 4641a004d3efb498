// A reading in work: its message, the loans and the cursor, and what it takes next: bytes, words, numbers and texts. decisions.rt has the decisions on its loans.

#![tactic(auto)]

mod decisions;
mod message;

ghost use Rattle.std.specs.Prelude.{◌≡◌, ◌+◌, ◌^◌, ◌≤◌, ◌<◌, IfOk, MatchResult, length};
ghost use Rattle.rows.specs.Memory.{zeroed};
ghost use Rattle.rows.specs.Lent.{lent_of};
ghost use Rattle.decide.specs.Spared.{NoLoan, OnlyStore, OnlyText};
ghost use Rattle.wire.specs.declared.Size.TheVariants.{New};
ghost use Rattle.format.specs.Reading as r;
ghost use Rattle.scan.specs.Reads.{Reads, Back, Copied, Same, memory_in};

use format::Refusal;
use rows::{Cursor, Lent, Span};
use wire::Size;

// The readings that take a cursor, and give the one behind what they read.
pub use message::{byte, eight, word};

// A reading in work: the message, the loans, and what is taken and used of them. The loans stand one by one, with `lent` and `clear` of their own: what the
// references of a `Loans` within this struct hold in the end, no proof could tell.
#[derive(Drop)]
pub struct Reading<'m, 'l> {
    pub message: &'m [u8],
    pub rows: &'l mut [usize],
    pub store: &'l mut [u8],
    pub strings: &'l mut [usize],
    pub objects: &'l mut [usize],
    pub traits: &'l mut [usize],
    pub names: &'l mut [usize],
    pub cursor: Cursor,
}

impl Reading<'_, '_> {
    // ---- bytes and words

    // One byte.
    pub fn byte(&mut self) -> Result<usize, Refusal>
        ensures reads { Reads result self.old self.new r.byte }
        ensures spares { NoLoan (memory_in self.old) (memory_in self.new) }
        ensures back { Back result self.old self.new }
    {
        let (b, cursor) = message::byte(self.message, self.cursor)?;
        self.cursor = cursor;
        Ok(b)
    }

    // A U29.
    pub fn word(&mut self) -> Result<usize, Refusal>
        ensures reads { Reads result self.old self.new (r.u29 3 0) × IfOk result (λ n. n < 2 ^ 29) }
        ensures spares { NoLoan (memory_in self.old) (memory_in self.new) }
        ensures back { Back result self.old self.new }
    {
        let (n, cursor) = message::word(self.message, self.cursor)?;
        self.cursor = cursor;
        Ok(n)
    }

    // Eight bytes.
    pub fn eight(&mut self) -> Result<usize, Refusal>
        ensures reads { Reads result self.old self.new (r.number 7 0) }
        ensures spares { NoLoan (memory_in self.old) (memory_in self.new) }
        ensures back { Back result self.old self.new }
    {
        let (n, cursor) = message::eight(self.message, self.cursor)?;
        self.cursor = cursor;
        Ok(n)
    }

    // Hands an answer on; where it is a refusal, the cursor goes back to `before`.
    pub fn settled<T>(&mut self, before: Cursor, a: Result<T, Refusal>) -> Result<T, Refusal>
        ensures answer { result ≡ a }
        ensures spares { NoLoan (memory_in self.old) (memory_in self.new) }
        ensures same { Same self.old self.new }
        ensures cursor { MatchResult a (λ x. self.new.cursor ≡ self.old.cursor) (λ r. self.new.cursor ≡ before) }
    {
        if a.is_err() {
            self.cursor = before;
        }
        a
    }

    // ---- the loans

    // Their lengths.
    pub fn lent(&self) -> Lent
        ensures { result ≡ lent_of (memory_in self.now) }
    {
        Lent {
            rows: self.rows.len(),
            store: self.store.len(),
            strings: self.strings.len(),
            objects: self.objects.len(),
            traits: self.traits.len(),
            names: self.names.len(),
        }
    }

    // Sets every loan to zero.
    pub fn clear(&mut self)
        ensures zero { (memory_in self.new ≡ zeroed (memory_in self.old)) × Same self.old self.new }
        ensures cursor { self.new.cursor ≡ self.old.cursor }
    {
        self.rows.fill(0);
        self.store.fill(0);
        self.strings.fill(0);
        self.objects.fill(0);
        self.traits.fill(0);
        self.names.fill(0);
    }

    // ---- texts

    // The next bytes, copied to a span as a whole.
    fn copy(&mut self, s: Span)
        requires { (s.begin + s.size ≤ length self.old.store.now) × (self.old.cursor.at + s.size ≤ length self.old.message.now) }
        ensures { Copied self.old self.new s }
    {
        let at = self.cursor.at;
        let end = at + s.size;
        let bytes = &self.message[at..end];
        rows::copy(self.store, s.begin, bytes);
        self.cursor.at = end;
    }

    // The bytes of a span, copied as a whole.
    pub fn copied(&mut self, s: Span) -> Result<(), Refusal>
        requires { 0 < s.size → (s.begin + s.size ≤ self.old.cursor.store) × (self.old.cursor.store ≤ length self.old.store.now) }
        ensures reads { Reads result self.old self.new (r.filled (λ left. r.ret tt) s s.size) }
        ensures spares { OnlyStore (memory_in self.old) (memory_in self.new) }
        ensures back { Back result self.old self.new }
    {
        if s.size == 0 {
            return Ok(());
        }
        if !message::here(self.message.len(), self.cursor.at, s.size) {
            return Err(message::short(self.message.len(), self.cursor.at));
        }
        self.copy(s);
        Ok(())
    }

    // The bytes of a span, copied as a whole, and whether they are a text.
    pub fn checked(&mut self, s: Span) -> Result<bool, Refusal>
        requires { 0 < s.size → (s.begin + s.size ≤ self.old.cursor.store) × (self.old.cursor.store ≤ length self.old.store.now) }
        ensures reads { Reads result self.old self.new (r.chars_of s s.size) }
        ensures spares { OnlyStore (memory_in self.old) (memory_in self.new) }
        ensures back { Back result self.old self.new }
    {
        if s.size == 0 {
            return Ok(true);
        }
        if !message::here(self.message.len(), self.cursor.at, s.size) {
            return Err(message::short(self.message.len(), self.cursor.at));
        }
        let at = self.cursor.at;
        let valid = utf8::valid(&self.message[at..at + s.size]);
        self.copy(s);
        Ok(valid)
    }

    // A new text of `size` bytes, which enters the strings; an empty one doesn't.
    fn new_text(&mut self, size: usize) -> Result<Span, Refusal>
        ensures reads { Reads result self.old self.new (r.text_of r.plain (New size)) }
        ensures spares { OnlyText (memory_in self.old) (memory_in self.new) }
    {
        if size == 0 {
            return Ok(Span::default());
        }
        let s = self.reserved(size)?;
        let valid = self.checked(s)?;
        self.text_end(s, valid)
    }

    // The steps of a text: a refusal leaves the cursor where it stands.
    fn text_steps(&mut self) -> Result<Span, Refusal>
        ensures reads { Reads result self.old self.new (r.text r.plain) }
        ensures spares { OnlyText (memory_in self.old) (memory_in self.new) }
    {
        let w = self.word()?;
        match wire::size_of(w) {
            Size::Old(i) => self.old_text(i),
            Size::New(n) => self.new_text(n),
        }
    }

    // A key, a class or a name.
    pub fn text(&mut self) -> Result<Span, Refusal>
        ensures reads { Reads result self.old self.new (r.text r.plain) }
        ensures spares { OnlyText (memory_in self.old) (memory_in self.new) }
        ensures back { Back result self.old self.new }
    {
        let before = self.cursor;
        let a = self.text_steps();
        self.settled(before, a)
    }
}

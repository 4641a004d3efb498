// The decisions on a reading's loans: each is the decision of its name, and moves the cursor.
// They stand beside those of `resume`: the contracts differ (`Reads`, `Decides`), and one function over both would need two fields of a `&mut` struct lent
// to one call, which the check refuses.
ghost use Rattle.std.specs.Prelude.{◌≡◌, ◌+◌, ◌^◌, ◌<◌, IfOk};
ghost use Rattle.decide.specs.Outcomes.{answer_in, old_object, width_in};
ghost use Rattle.decide.specs.Spared.{NoLoan, OnlyNames, OnlyObjects, OnlyRows, OnlyStrings, OnlyTraits};
ghost use Rattle.format.specs.Decide as d;
ghost use Rattle.format.specs.Reading as r;
ghost use Rattle.scan.specs.Reads.{Reads, Looks, Back, memory_in};

use crate::Reading;
use decide::Width;
use format::Refusal;
use rows::{Cursor, Key, Span, Trait};

// The key of a sealed member; behind a name that is there, there is a number.
fn sealed_key(names: &[usize], c: Cursor, i: usize) -> Result<Key, Refusal>
    ensures { (answer_in result c ≡ d.sealed_key i names.now c) × IfOk result (λ k. i + 1 < 2 ^ 64) }
{
    decide::sealed_key(names, c, i)
}

impl Reading<'_, '_> {
    // A marker where `left` values may still open: the row of its value.
    pub fn marker(&mut self, key: Key, left: usize, b: usize) -> Result<usize, Refusal>
        ensures reads { Reads result self.old self.new (r.by (d.on_rows (d.marker key left b))) }
        ensures spares { OnlyRows (memory_in self.old) (memory_in self.new) }
        ensures back { Back result self.old self.new }
    {
        let c = self.cursor;
        let (row, cursor) = decide::marker(self.rows, c, key, left, b)?;
        self.cursor = cursor;
        Ok(row)
    }

    // A row ends where the rows now end.
    pub fn closed(&mut self, row: usize) -> Result<(), Refusal>
        ensures reads { Reads result self.old self.new (r.by (d.on_rows (d.closed row))) }
        ensures spares { OnlyRows (memory_in self.old) (memory_in self.new) }
        ensures back { Back result self.old self.new }
    {
        let c = self.cursor;
        self.cursor = decide::closed(self.rows, c, row)?;
        Ok(())
    }

    // A row's number is whole, and it ends.
    pub fn numbered(&mut self, row: usize, n: usize) -> Result<(), Refusal>
        ensures reads { Reads result self.old self.new (r.by (d.on_rows (d.numbered row n))) }
        ensures spares { OnlyRows (memory_in self.old) (memory_in self.new) }
        ensures back { Back result self.old self.new }
    {
        let c = self.cursor;
        self.cursor = decide::numbered(self.rows, c, row, n)?;
        Ok(())
    }

    // An integer's U29 is whole.
    pub fn integer_end(&mut self, row: usize, w: usize) -> Result<(), Refusal>
        ensures reads { Reads result self.old self.new (r.by (d.on_rows (d.integer_end row w))) }
        ensures spares { OnlyRows (memory_in self.old) (memory_in self.new) }
        ensures back { Back result self.old self.new }
    {
        let c = self.cursor;
        self.cursor = decide::integer_end(self.rows, c, row, w)?;
        Ok(())
    }

    // A date's eight bytes are whole.
    pub fn date_end(&mut self, row: usize, bits: usize) -> Result<(), Refusal>
        ensures reads { Reads result self.old self.new (r.by (d.on_rows (d.date_end row bits))) }
        ensures spares { OnlyRows (memory_in self.old) (memory_in self.new) }
        ensures back { Back result self.old self.new }
    {
        let c = self.cursor;
        self.cursor = decide::date_end(self.rows, c, row, bits)?;
        Ok(())
    }

    // A row's body.
    pub fn bodied(&mut self, row: usize, s: Span) -> Result<(), Refusal>
        ensures reads { Reads result self.old self.new (r.by (d.on_rows (d.bodied row s))) }
        ensures spares { OnlyRows (memory_in self.old) (memory_in self.new) }
        ensures back { Back result self.old self.new }
    {
        let c = self.cursor;
        self.cursor = decide::bodied(self.rows, c, row, s)?;
        Ok(())
    }

    // An object's class.
    pub fn object_class(&mut self, row: usize, t: Trait) -> Result<(), Refusal>
        ensures reads { Reads result self.old self.new (r.by (d.on_rows (d.object_class row t))) }
        ensures spares { OnlyRows (memory_in self.old) (memory_in self.new) }
        ensures back { Back result self.old self.new }
    {
        let c = self.cursor;
        self.cursor = decide::object_class(self.rows, c, row, t)?;
        Ok(())
    }

    // A vector's class.
    pub fn vector_class(&mut self, row: usize, star: bool, s: Span) -> Result<(), Refusal>
        ensures reads { Reads result self.old self.new (r.by (d.on_rows (d.vector_class row star s))) }
        ensures spares { OnlyRows (memory_in self.old) (memory_in self.new) }
        ensures back { Back result self.old self.new }
    {
        let c = self.cursor;
        self.cursor = decide::vector_class(self.rows, c, row, star, s)?;
        Ok(())
    }

    // A row's flag.
    pub fn flagged(&mut self, row: usize, flag: usize) -> Result<(), Refusal>
        ensures reads { Reads result self.old self.new (r.by (d.on_rows (d.flagged row flag))) }
        ensures spares { OnlyRows (memory_in self.old) (memory_in self.new) }
        ensures back { Back result self.old self.new }
    {
        let c = self.cursor;
        self.cursor = decide::flagged(self.rows, c, row, flag)?;
        Ok(())
    }

    // An entry of a row is finished, after `done` others, which have a row each.
    pub fn counted(&mut self, row: usize, col: usize, done: usize) -> Result<(), Refusal>
        ensures reads { Reads result self.old self.new (r.by (d.on_rows (d.counted row col done))) × IfOk result (λ x. done + 1 < 2 ^ 64) }
        ensures spares { OnlyRows (memory_in self.old) (memory_in self.new) }
        ensures back { Back result self.old self.new }
    {
        let c = self.cursor;
        self.cursor = decide::counted(self.rows, c, row, col, done)?;
        Ok(())
    }

    // `n` bytes of a raw vector are still to come.
    pub fn grown(&mut self, row: usize, w: Width, s: Span, n: usize) -> Result<(), Refusal>
        ensures reads { Reads result self.old self.new (r.by (d.on_rows (d.grown row (width_in w) s n))) }
        ensures spares { OnlyRows (memory_in self.old) (memory_in self.new) }
        ensures back { Back result self.old self.new }
    {
        let c = self.cursor;
        self.cursor = decide::grown(self.rows, c, row, w, s, n)?;
        Ok(())
    }

    // A row becomes a reference to object `i`.
    pub fn referred(&mut self, row: usize, i: usize) -> Result<(), Refusal>
        ensures reads { Reads result self.old self.new (r.by (λ m. d.on_rows (d.referred row i m.objects) m)) }
        ensures spares { OnlyRows (memory_in self.old) (memory_in self.new) }
        ensures back { Back result self.old self.new }
    {
        let c = self.cursor;
        let object = self.old_object(i)?;
        self.cursor = decide::referred(self.rows, c, row, i, object)?;
        Ok(())
    }

    // Object `i` of the objects: its row.
    fn old_object(&self, i: usize) -> Result<usize, Refusal>
        ensures { answer_in result self.now.cursor ≡ old_object i self.now.objects.now self.now.cursor }
    {
        decide::old_object(self.objects, self.cursor, i)
    }

    // A dictionary's key is finished, after `done` pairs.
    pub fn key_end(&self, row: usize, done: usize) -> Result<(), Refusal>
        ensures { Looks result self.now (r.by (d.looking (λ m. d.key_end row done m.rows))) }
    {
        decide::key_end(self.rows, self.cursor, row, done)
    }

    // A text's last byte: the verdict on it.
    pub fn judged(&self, valid: bool) -> Result<(), Refusal>
        ensures { Looks result self.now (r.by (d.looking (λ m. d.judged valid))) }
    {
        decide::judged(self.cursor, valid)
    }

    // A row enters the objects.
    pub fn entered(&mut self, row: usize) -> Result<(), Refusal>
        ensures reads { Reads result self.old self.new (r.by (d.on_objects (d.entered row))) }
        ensures spares { OnlyObjects (memory_in self.old) (memory_in self.new) }
        ensures back { Back result self.old self.new }
    {
        let c = self.cursor;
        self.cursor = decide::entered(self.objects, c, row)?;
        Ok(())
    }

    // Trait `i` of the traits.
    pub fn old_trait(&self, i: usize) -> Result<Trait, Refusal>
        ensures { Looks result self.now (r.by (d.looking (λ m. d.old_trait i m.traits))) }
    {
        decide::old_trait(self.traits, self.cursor, i)
    }

    // A trait is entered after its last name.
    pub fn trait_end(&mut self, t: Trait) -> Result<(), Refusal>
        ensures reads { Reads result self.old self.new (r.by (d.on_traits (d.trait_end t))) }
        ensures spares { OnlyTraits (memory_in self.old) (memory_in self.new) }
        ensures back { Back result self.old self.new }
    {
        let c = self.cursor;
        self.cursor = decide::trait_end(self.traits, c, t)?;
        Ok(())
    }

    // A name's span enters the names.
    pub fn named(&mut self, s: Span) -> Result<Span, Refusal>
        ensures reads { Reads result self.old self.new (r.by (d.on_names (d.named s))) }
        ensures spares { OnlyNames (memory_in self.old) (memory_in self.new) }
        ensures back { Back result self.old self.new }
    {
        let c = self.cursor;
        let (span, cursor) = decide::named(self.names, c, s)?;
        self.cursor = cursor;
        Ok(span)
    }

    // The key of a sealed member: name `i` of the names.
    pub fn sealed_key(&self, i: usize) -> Result<Key, Refusal>
        ensures { Looks result self.now (r.by (d.looking (λ m. d.sealed_key i m.names))) × IfOk result (λ k. i + 1 < 2 ^ 64) }
    {
        sealed_key(self.names, self.cursor, i)
    }

    // Whether a vector's class is `*`.
    pub fn starred(&self, s: Span) -> Result<bool, Refusal>
        ensures { Looks result self.now (r.by (d.looking (λ m. d.starred s m.store))) }
    {
        decide::starred(self.store, self.cursor, s)
    }

    // Text `i` of the strings.
    pub fn old_text(&self, i: usize) -> Result<Span, Refusal>
        ensures { Looks result self.now (r.by (d.looking (λ m. d.old_text i m.strings))) }
    {
        decide::old_text(self.strings, self.cursor, i)
    }

    // Room for `n` bytes is reserved before they come.
    pub fn reserved(&mut self, n: usize) -> Result<Span, Refusal>
        ensures reads { Reads result self.old self.new (r.by (d.looking (λ m. d.reserved n m.store))) }
        ensures spares { NoLoan (memory_in self.old) (memory_in self.new) }
        ensures back { Back result self.old self.new }
    {
        let c = self.cursor;
        let (span, cursor) = decide::reserved(self.store.len(), c, n)?;
        self.cursor = cursor;
        Ok(span)
    }

    // A text's last byte, where it enters the strings.
    pub fn text_end(&mut self, s: Span, valid: bool) -> Result<Span, Refusal>
        ensures reads { Reads result self.old self.new (r.by (d.on_strings (d.text_end s valid))) }
        ensures spares { OnlyStrings (memory_in self.old) (memory_in self.new) }
        ensures back { Back result self.old self.new }
    {
        let c = self.cursor;
        let (span, cursor) = decide::text_end(self.strings, c, s, valid)?;
        self.cursor = cursor;
        Ok(span)
    }
}

// The decisions of a reading that is fed, on its own loans and cursor: each is the definition of the same name, and moves the cursor.
// The cursor is read into a variable first where a loan is lent: behind `self` it can't be read meanwhile.
// They stand beside those of `scan`: the contracts differ (`Decides`, `Reads`), and one function over both would need two fields of a `&mut` struct lent
// to one call, which the check refuses.

#![tactic(auto)]

ghost use Rattle.std.specs.Prelude.{◌≡◌, ◌+◌, ◌^◌, ◌<◌, IsOk};
ghost use Rattle.decide.specs.Spared.{NoLoan, OnlyNames, OnlyObjects, OnlyRows, OnlyStore, OnlyStrings, OnlyTraits};
ghost use Rattle.format.specs.Decide as d;
ghost use Rattle.decide.specs.Outcomes.{old_object, width_in};
ghost use Rattle.resume.specs.Steps.{Decides, loans_of};

use crate::Feeding;
use decide::Width;
use format::Refusal;
use rows::{Cursor, Key, Span, Trait};

impl Feeding<'_, '_> {
    // ---- a row

    // A marker where `left` values may still open: its row.
    pub fn marker(&mut self, key: Key, left: usize, b: usize) -> Result<usize, Refusal>
        ensures decided { Decides result self.old self.new (d.on_rows (d.marker key left b)) }
        ensures spares { OnlyRows (loans_of self.old) (loans_of self.new) }
    {
        let cursor = self.cursor;
        let (row, c) = decide::marker(self.rows, cursor, key, left, b)?;
        self.cursor = c;
        Ok(row)
    }

    // A row ends where the rows now end.
    pub fn closed(&mut self, row: usize) -> Result<(), Refusal>
        ensures decided { Decides result self.old self.new (d.on_rows (d.closed row)) }
        ensures spares { OnlyRows (loans_of self.old) (loans_of self.new) }
        ensures still { self.new.cursor ≡ self.old.cursor }
    {
        let cursor = self.cursor;
        self.cursor = decide::closed(self.rows, cursor, row)?;
        Ok(())
    }

    // A double's bits are whole, and its row ends.
    pub fn numbered(&mut self, row: usize, bits: usize) -> Result<(), Refusal>
        ensures decided { Decides result self.old self.new (d.on_rows (d.numbered row bits)) }
        ensures spares { OnlyRows (loans_of self.old) (loans_of self.new) }
        ensures still { self.new.cursor ≡ self.old.cursor }
    {
        let cursor = self.cursor;
        self.cursor = decide::numbered(self.rows, cursor, row, bits)?;
        Ok(())
    }

    // An integer's U29 is whole, and its row ends.
    pub fn integer_end(&mut self, row: usize, w: usize) -> Result<(), Refusal>
        ensures decided { Decides result self.old self.new (d.on_rows (d.integer_end row w)) }
        ensures spares { OnlyRows (loans_of self.old) (loans_of self.new) }
        ensures still { self.new.cursor ≡ self.old.cursor }
    {
        let cursor = self.cursor;
        self.cursor = decide::integer_end(self.rows, cursor, row, w)?;
        Ok(())
    }

    // A date's eight bytes are whole, and its row ends.
    pub fn date_end(&mut self, row: usize, bits: usize) -> Result<(), Refusal>
        ensures decided { Decides result self.old self.new (d.on_rows (d.date_end row bits)) }
        ensures spares { OnlyRows (loans_of self.old) (loans_of self.new) }
        ensures still { self.new.cursor ≡ self.old.cursor }
    {
        let cursor = self.cursor;
        self.cursor = decide::date_end(self.rows, cursor, row, bits)?;
        Ok(())
    }

    // The row's body.
    pub fn bodied(&mut self, row: usize, p: Span) -> Result<(), Refusal>
        ensures decided { Decides result self.old self.new (d.on_rows (d.bodied row p)) }
        ensures spares { OnlyRows (loans_of self.old) (loans_of self.new) }
    {
        let cursor = self.cursor;
        self.cursor = decide::bodied(self.rows, cursor, row, p)?;
        Ok(())
    }

    // An object's class.
    pub fn object_class(&mut self, row: usize, t: Trait) -> Result<(), Refusal>
        ensures decided { Decides result self.old self.new (d.on_rows (d.object_class row t)) }
        ensures spares { OnlyRows (loans_of self.old) (loans_of self.new) }
    {
        let cursor = self.cursor;
        self.cursor = decide::object_class(self.rows, cursor, row, t)?;
        Ok(())
    }

    // A vector's class: `*` is none.
    pub fn vector_class(&mut self, row: usize, star: bool, p: Span) -> Result<(), Refusal>
        ensures decided { Decides result self.old self.new (d.on_rows (d.vector_class row star p)) }
        ensures spares { OnlyRows (loans_of self.old) (loans_of self.new) }
    {
        let cursor = self.cursor;
        self.cursor = decide::vector_class(self.rows, cursor, row, star, p)?;
        Ok(())
    }

    // The row's flag.
    pub fn flagged(&mut self, row: usize, flag: usize) -> Result<(), Refusal>
        ensures decided { Decides result self.old self.new (d.on_rows (d.flagged row flag)) }
        ensures spares { OnlyRows (loans_of self.old) (loans_of self.new) }
        ensures still { self.new.cursor ≡ self.old.cursor }
    {
        let cursor = self.cursor;
        self.cursor = decide::flagged(self.rows, cursor, row, flag)?;
        Ok(())
    }

    // An entry is finished, after `done` others, which are fewer than the rows.
    pub fn counted(&mut self, row: usize, col: usize, done: usize) -> Result<(), Refusal>
        ensures decided { Decides result self.old self.new (d.on_rows (d.counted row col done)) }
        ensures fewer { IsOk result → done + 1 < 2 ^ 64 }
        ensures spares { OnlyRows (loans_of self.old) (loans_of self.new) }
        ensures still { self.new.cursor ≡ self.old.cursor }
    {
        let cursor = self.cursor;
        self.cursor = decide::counted(self.rows, cursor, row, col, done)?;
        Ok(())
    }

    // A dictionary's key is finished, after `done` pairs.
    pub fn key_end(&self, row: usize, done: usize) -> Result<(), Refusal>
        ensures { Decides result self.now self.now (d.looking (λ m. d.key_end row done m.rows)) }
    {
        decide::key_end(self.rows, self.cursor, row, done)
    }

    // `n` bytes of a raw vector are still to come.
    pub fn grown(&mut self, row: usize, w: Width, p: Span, n: usize) -> Result<(), Refusal>
        ensures decided { Decides result self.old self.new (d.on_rows (d.grown row (width_in w) p n)) }
        ensures spares { OnlyRows (loans_of self.old) (loans_of self.new) }
        ensures still { self.new.cursor ≡ self.old.cursor }
    {
        let cursor = self.cursor;
        self.cursor = decide::grown(self.rows, cursor, row, w, p, n)?;
        Ok(())
    }

    // ---- texts and bytes

    // Text `i` of the strings.
    pub fn old_text(&self, i: usize) -> Result<Span, Refusal>
        ensures { Decides result self.now self.now (d.looking (λ m. d.old_text i m.strings)) }
    {
        decide::old_text(self.strings, self.cursor, i)
    }

    // Room for `n` bytes is reserved before they come.
    pub fn reserved(&mut self, n: usize) -> Result<Span, Refusal>
        ensures decided { Decides result self.old self.new (d.looking (λ m. d.reserved n m.store)) }
        ensures spares { NoLoan (loans_of self.old) (loans_of self.new) }
    {
        let cursor = self.cursor;
        let (p, c) = decide::reserved(self.store.len(), cursor, n)?;
        self.cursor = c;
        Ok(p)
    }

    // A byte of a span, `n` more to come after it.
    pub fn stored(&mut self, p: Span, n: usize, b: u8) -> Result<(), Refusal>
        ensures decided { Decides result self.old self.new (d.on_store (d.stored p n b)) }
        ensures spares { OnlyStore (loans_of self.old) (loans_of self.new) }
        ensures still { self.new.cursor ≡ self.old.cursor }
    {
        let cursor = self.cursor;
        self.cursor = decide::stored(self.store, cursor, p, n, b)?;
        Ok(())
    }

    // A text's last byte: the verdict on it.
    pub fn judged(&self, valid: bool) -> Result<(), Refusal>
        ensures { Decides result self.now self.now (d.looking (λ m. d.judged valid)) }
    {
        decide::judged(self.cursor, valid)
    }

    // A text's last byte, where it enters the strings.
    pub fn text_end(&mut self, p: Span, valid: bool) -> Result<Span, Refusal>
        ensures decided { Decides result self.old self.new (d.on_strings (d.text_end p valid)) }
        ensures spares { OnlyStrings (loans_of self.old) (loans_of self.new) }
    {
        let cursor = self.cursor;
        let (q, c) = decide::text_end(self.strings, cursor, p, valid)?;
        self.cursor = c;
        Ok(q)
    }

    // ---- objects and traits

    // `row` enters the objects.
    pub fn entered(&mut self, row: usize) -> Result<(), Refusal>
        ensures decided { Decides result self.old self.new (d.on_objects (d.entered row)) }
        ensures spares { OnlyObjects (loans_of self.old) (loans_of self.new) }
    {
        let cursor = self.cursor;
        self.cursor = decide::entered(self.objects, cursor, row)?;
        Ok(())
    }

    // Object `i` of the objects: its row.
    fn old_object(&self, i: usize) -> Result<usize, Refusal>
        ensures { Decides result self.now self.now (d.looking (λ m. old_object i m.objects)) }
    {
        decide::old_object(self.objects, self.cursor, i)
    }

    // `row` becomes a reference to object `i`.
    pub fn referred(&mut self, row: usize, i: usize) -> Result<(), Refusal>
        ensures decided { Decides result self.old self.new (λ m. d.on_rows (d.referred row i m.objects) m) }
        ensures spares { OnlyRows (loans_of self.old) (loans_of self.new) }
    {
        let object = self.old_object(i)?;
        let cursor = self.cursor;
        self.cursor = decide::referred(self.rows, cursor, row, i, object)?;
        Ok(())
    }

    // Trait `i` of the traits.
    pub fn old_trait(&self, i: usize) -> Result<Trait, Refusal>
        ensures { Decides result self.now self.now (d.looking (λ m. d.old_trait i m.traits)) }
    {
        decide::old_trait(self.traits, self.cursor, i)
    }

    // A trait is entered after its last name.
    pub fn trait_end(&mut self, t: Trait) -> Result<(), Refusal>
        ensures decided { Decides result self.old self.new (d.on_traits (d.trait_end t)) }
        ensures spares { OnlyTraits (loans_of self.old) (loans_of self.new) }
    {
        let cursor = self.cursor;
        self.cursor = decide::trait_end(self.traits, cursor, t)?;
        Ok(())
    }

    // A field name's span, as it is read.
    pub fn named(&mut self, p: Span) -> Result<Span, Refusal>
        ensures decided { Decides result self.old self.new (d.on_names (d.named p)) }
        ensures spares { OnlyNames (loans_of self.old) (loans_of self.new) }
    {
        let cursor = self.cursor;
        let (q, c) = decide::named(self.names, cursor, p)?;
        self.cursor = c;
        Ok(q)
    }

    // The key of a sealed member: name `i` of the names.
    pub fn sealed_key(&self, i: usize) -> Result<Key, Refusal>
        ensures { Decides result self.now self.now (d.looking (λ m. d.sealed_key i m.names)) }
    {
        decide::sealed_key(self.names, self.cursor, i)
    }

    // Whether a vector's class is `*`.
    pub fn starred(&self, p: Span) -> Result<bool, Refusal>
        ensures { Decides result self.now self.now (d.looking (λ m. d.starred p m.store)) }
    {
        decide::starred(self.store, self.cursor, p)
    }
}

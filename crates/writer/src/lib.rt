// The bytes of the tree of a row, each reference written as its target's whole tree: the same calls measure them, which stores nothing, and write them.

#![tactic(auto)]

ghost use Rattle.std.specs.Prelude.{◌≡◌, cond, not, [], ◌∷◌, ◌++◌, ℕ, ◌+◌, ◌*◌, ◌/◌, ◌^◌, ◌<◌, ◌≤◌, eqb, length, take};
ghost use Rattle.std.specs.Int.Signed.{mag};
ghost use Rattle.rows.specs.Kinds.{kind_array, kind_object, kind_object_vector, kind_dictionary};
ghost use Rattle.wire.specs.U29.{u29};
ghost use Rattle.wire.specs.Big.{bytes_of};
ghost use Rattle.wire.specs.Sign.{of_column};
ghost use Rattle.format.specs.Standard.{Tree, boolean, integer, double, date, size_bytes, text_bytes, flag_byte, class_bytes, encode_plain};
ghost use Rattle.format.specs.Unfold.{body_of, key_text, class_text, after, node};
ghost use Rattle.format.specs.Writing.{Stream, these, emit_in};
ghost use Rattle.format.specs.Answers.{output, write_call};
ghost use Rattle.writer.specs.Run.{refusal_at, Writes, Puts};
ghost use Rattle.writer.specs.Pieces.{Fit, Of, Plainly, value_at, node_at, members_at, names_at, object_head_at, vector_head_at};

use format::{Refusal, Written, refusals};
use judge::STAR;
use rows::{OPEN_LIMIT, Span, Table, columns, kinds, loans};
use wire::markers;

// Why bytes stop before their end.
#[derive(Clone, Copy, PartialEq, Eq)]
enum Stop {
    NoRoom,
    TooDeep,
}

impl Stop {
    // The refusal of a writing that stopped at a place.
    fn refusal(self, place: usize) -> Refusal
        ensures { result ≡ refusal_at self place }
    {
        let (number, told) = match self {
            Stop::NoRoom => (refusals::NO_ROOM, loans::OUTPUT),
            Stop::TooDeep => (refusals::TOO_DEEP, 0),
        };
        Refusal {
            number,
            told,
            place,
        }
    }
}

// ---- single bytes, and the low bits of words

// An empty text: no class, and the end of pairs.
const EMPTY_TEXT: u8 = 0x01;

// The low bit of a size word says that the length follows; a date has no length.
const NEW: usize = 1;

// The low bits of the word of a new trait, and of a dynamic one.
const NEW_TRAIT: usize = 3;

const NEW_DYNAMIC: usize = 11;

// The size word of what is new and has `n` bytes or entries.
fn size_word(n: usize) -> usize
    requires { n < 2 ^ 63 }
    ensures { result ≡ n * 2 + 1 }
{
    (n << 1usize) | NEW
}

// The word of a new trait of `sealed` names: dynamic only if there are dynamic members.
fn trait_word(sealed: usize, dynamic: usize) -> usize
    requires { sealed < 2 ^ 59 }
    ensures { result ≡ cond (eqb dynamic 0) (sealed * 16 + 3) (sealed * 16 + 11) }
{
    let low = if dynamic == 0 { NEW_TRAIT } else { NEW_DYNAMIC };
    (sealed << 4usize) | low
}

// A flag's byte.
fn flag_byte(flag: usize) -> u8
    ensures { result ≡ flag_byte (not (eqb flag 0)) }
{
    u8::from(flag != 0)
}

// The row behind `n` rows with what they hold, from row `first` on.
fn row_after(table: Table, first: usize, n: usize) -> usize
    ensures { result ≡ after table.entry.rows.now first n }
{
    let mut row = first;
    for _ in 0..n {
        row = table.column(row, columns::END);
    }
    row
}

// The body of a row, as far as it is there.
fn body<'s>(table: Table<'_, 's>, j: usize) -> &'s [u8]
    ensures { result.now ≡ body_of table.entry.rows.now table.entry.store.now j }
{
    text::clip(table.store, table.body(j))
}

// Rows, and the output that their bytes go into from `at` on; a dry run only counts them.
#[derive(Drop)]
struct Writer<'a> {
    table: Table<'a, 'a>,
    out: &'a mut [u8],
    at: usize,
    dry: bool,
}

// Each of these writes what its clause says, or stops at the first byte that has no room, or at a value that nests too deep.
impl Writer<'_> {
    // ---- bytes

    // The part, as much of it as there is room for.
    fn bytes(&mut self, part: &[u8]) -> Result<(), Stop>
        ensures { Puts result self.old self.new part.now }
    {
        let room = self.out.len().saturating_sub(self.at);
        let n = part.len().min(room);
        if !self.dry && 0 < n {
            rows::copy(self.out, self.at, &part[..n]);
        }
        self.at += n;
        if n < part.len() {
            return Err(Stop::NoRoom);
        }
        Ok(())
    }

    // A byte, straight to its place: as a part of one byte it was measured slower.
    fn byte(&mut self, b: u8) -> Result<(), Stop>
        ensures { Puts result self.old self.new (b ∷ []) }
    {
        if self.out.len() <= self.at {
            return Err(Stop::NoRoom);
        }
        if !self.dry {
            self.out[self.at] = b;
        }
        self.at += 1;
        Ok(())
    }

    // A U29, which has four bytes at most.
    fn u29(&mut self, n: usize) -> Result<(), Stop>
        ensures { Puts result self.old self.new (u29 n) }
    {
        let mut form = [0u8; 4];
        let size = wire::put_u29(&mut form, 0, n).unwrap();
        self.bytes(&form[..size])
    }

    // The eight bytes of a double or a date.
    fn eight(&mut self, n: usize) -> Result<(), Stop>
        ensures { Puts result self.old self.new (bytes_of 8 n) }
    {
        self.bytes(&n.to_be_bytes())
    }

    // A marker and a word.
    fn head(&mut self, marker: u8, word: usize) -> Result<(), Stop>
        ensures { Puts result self.old self.new (marker ∷ u29 word) }
    {
        self.byte(marker)?;
        self.u29(word)
    }

    // A text with its size word.
    fn text(&mut self, part: &[u8]) -> Result<(), Stop>
        ensures { Puts result self.old self.new (text_bytes part.now) }
    {
        self.u29(size_word(part.len()))?;
        self.bytes(part)
    }

    // A marker and a text.
    fn marked(&mut self, marker: u8, part: &[u8]) -> Result<(), Stop>
        ensures { Puts result self.old self.new (marker ∷ text_bytes part.now) }
    {
        self.byte(marker)?;
        self.text(part)
    }

    // A marker, the size word of `count` entries and a flag.
    fn flagged(&mut self, marker: u8, count: usize, flag: usize) -> Result<(), Stop>
        requires { count < 2 ^ 63 }
        ensures { Puts result self.old self.new (marker ∷ size_bytes count ++ flag_byte (not (eqb flag 0)) ∷ []) }
    {
        self.head(marker, size_word(count))?;
        self.byte(flag_byte(flag))
    }

    // ---- plain values

    // A boolean: any number but 0 is true.
    #[tactic(auto, unfolding(format::specs::Standard::encode_plain))]
    fn boolean(&mut self, number: usize) -> Result<(), Stop>
        ensures { Puts result self.old self.new (encode_plain (boolean (not (eqb number 0)))) }
    {
        let marker = if number == 0 {
            markers::FALSE
        } else {
            markers::TRUE
        };
        self.byte(marker)
    }

    // An integer, from the column that holds it.
    fn integer(&mut self, number: usize) -> Result<(), Stop>
        requires { mag (of_column number) < 2 ^ 28 }
        ensures { Puts result self.old self.new (encode_plain (integer (of_column number))) }
    {
        let bits = wire::integer_bits(wire::of_column(number)).unwrap();
        self.head(markers::INTEGER, bits)
    }

    // A double, from its bits.
    fn double(&mut self, number: usize) -> Result<(), Stop>
        ensures { Puts result self.old self.new (encode_plain (double number)) }
    {
        self.byte(markers::DOUBLE)?;
        self.eight(number)
    }

    // A date, from the bits of its milliseconds.
    fn date(&mut self, number: usize) -> Result<(), Stop>
        ensures { Puts result self.old self.new (encode_plain (date number)) }
    {
        self.head(markers::DATE, NEW)?;
        self.eight(number)
    }

    // A vector of numbers, `width` bytes to each.
    fn numbers(&mut self, marker: u8, part: &[u8], width: usize, flag: usize) -> Result<(), Stop>
        requires { 0 < width }
        ensures { Puts result self.old self.new
            (marker ∷ size_bytes (length part.now / width) ++ flag_byte (not (eqb flag 0)) ∷ part.now) }
    {
        self.flagged(marker, part.len() / width, flag)?;
        self.bytes(part)
    }

    // The value of a row that holds no others.
    fn plain(&mut self, j: usize) -> Result<(), Stop>
        requires { Plainly self.old.table.rows.now self.old.table.store.now j }
        ensures { (f : ℕ → Tree) (g : Tree → Stream) → Writes result self.old self.new (λ R B. emit_in g (node f R B j)) }
    {
        let table = self.table;
        let number = table.column(j, columns::NUMBER);
        let flag = table.column(j, columns::FLAG);
        // Kinds stay numbers here and in `value`, for the C interface: rows are lent by a C program, and any number may stand in them.
        match table.column(j, columns::KIND) {
            kinds::UNDEFINED => self.byte(markers::UNDEFINED),
            kinds::BOOLEAN => self.boolean(number),
            kinds::INTEGER => self.integer(number),
            kinds::DOUBLE => self.double(number),
            kinds::STRING => self.marked(markers::STRING, body(table, j)),
            kinds::XML_DOCUMENT => self.marked(markers::XML_DOCUMENT, body(table, j)),
            kinds::DATE => self.date(number),
            kinds::XML => self.marked(markers::XML, body(table, j)),
            kinds::BYTE_ARRAY => self.marked(markers::BYTE_ARRAY, body(table, j)),
            kinds::INT_VECTOR => self.numbers(markers::INT_VECTOR, body(table, j), 4, flag),
            kinds::UINT_VECTOR => self.numbers(markers::UINT_VECTOR, body(table, j), 4, flag),
            kinds::DOUBLE_VECTOR => self.numbers(markers::DOUBLE_VECTOR, body(table, j), 8, flag),
            _ => self.byte(markers::NULL),
        }
    }

    // ---- what stands before the values in a row

    // The key of row `k`.
    fn key(&mut self, k: usize) -> Result<(), Stop>
        ensures { Writes result self.old self.new (λ R B. these (text_bytes (key_text R B k))) }
    {
        let key = self.table.key(k);
        let span = Span {
            begin: key.begin,
            size: key.size,
        };
        self.text(text::clip(self.table.store, span))
    }

    // The keys of `n` rows, from row `first` on.
    fn names(&mut self, first: usize, n: usize) -> Result<(), Stop>
        ensures { (f : ℕ → Tree) → Writes result self.old self.new (λ R B. these (names_at f R B first n)) }
    {
        let mut row = first;
        for _ in 0..n {
            self.key(row)?;
            row = self.table.column(row, columns::END);
        }
        Ok(())
    }

    // The class of a row, or the text that says none.
    fn class(&mut self, none: &[u8], j: usize) -> Result<(), Stop>
        ensures { Writes result self.old self.new (λ R B. these (class_bytes none.now (class_text R B j))) }
    {
        let table = self.table;
        if table.column(j, columns::CLASS_MARK) == 0 {
            return self.text(none);
        }
        self.text(body(table, j))
    }

    // The marker of an object, its trait, its class and the names of its sealed members.
    fn object_head(&mut self, j: usize) -> Result<(), Stop>
        requires { Of kind_object self.old.table.rows.now self.old.table.store.now j }
        ensures { (f : ℕ → Tree) → Writes result self.old self.new (λ R B. these (object_head_at f R B j)) }
    {
        let table = self.table;
        let count = table.column(j, columns::COUNT);
        let word = trait_word(count, table.column(j, columns::COUNT2));
        self.head(markers::OBJECT, word)?;
        self.class(&[], j)?;
        self.names(j + 1, count)
    }

    // The marker of a vector of objects, its length, its flag and its class.
    fn vector_head(&mut self, j: usize) -> Result<(), Stop>
        requires { Of kind_object_vector self.old.table.rows.now self.old.table.store.now j }
        ensures { (f : ℕ → Tree) → Writes result self.old self.new (λ R B. these (vector_head_at f R B j)) }
    {
        let table = self.table;
        let count = table.column(j, columns::COUNT);
        let flag = table.column(j, columns::FLAG);
        self.flagged(markers::OBJECT_VECTOR, count, flag)?;
        self.class(&[STAR], j)
    }

    // ---- values in values: one cycle of calls, over how many may still open

    // The values of `n` rows, from row `first` on, each behind its key where they are `keyed`. This and `names` are two loops, since one that takes what it
    // does with a row as a closure is no plainer: in a cycle of calls each such closure has clauses of its own, as `|w, row| requires { Fit .. } ensures { .. }`.
    #[cycle(written)]
    fn members(&mut self, first: usize, n: usize, keyed: bool, left: usize) -> Result<(), Stop>
        requires { Fit self.old.table.rows.now self.old.table.store.now }
        ensures { Writes result self.old self.new (members_at left keyed first n) }
    {
        let mut row = first;
        for _ in 0..n {
            if keyed {
                self.key(row)?;
            }
            self.value(row, left)?;
            row = self.table.column(row, columns::END);
        }
        Ok(())
    }

    // An array: its keyed values with the end of their pairs, and then the others.
    #[cycle(written)]
    fn array(&mut self, j: usize, left: usize) -> Result<(), Stop>
        requires { Of kind_array self.old.table.rows.now self.old.table.store.now j }
        ensures { Writes result self.old self.new (λ R B. node_at left R B j) }
    {
        let table = self.table;
        let count = table.column(j, columns::COUNT);
        let count2 = table.column(j, columns::COUNT2);
        self.head(markers::ARRAY, size_word(count2))?;
        self.members(j + 1, count, true, left)?;
        self.byte(EMPTY_TEXT)?;
        self.members(row_after(table, j + 1, count), count2, false, left)
    }

    // An object: the values of its sealed members, and its dynamic members if it has some.
    #[cycle(written)]
    fn object(&mut self, j: usize, left: usize) -> Result<(), Stop>
        requires { Of kind_object self.old.table.rows.now self.old.table.store.now j }
        ensures { Writes result self.old self.new (λ R B. node_at left R B j) }
    {
        let table = self.table;
        let count = table.column(j, columns::COUNT);
        let count2 = table.column(j, columns::COUNT2);
        self.object_head(j)?;
        self.members(j + 1, count, false, left)?;
        if count2 == 0 {
            return Ok(());
        }
        self.members(row_after(table, j + 1, count), count2, true, left)?;
        self.byte(EMPTY_TEXT)
    }

    // A vector of objects.
    #[cycle(written)]
    fn vector(&mut self, j: usize, left: usize) -> Result<(), Stop>
        requires { Of kind_object_vector self.old.table.rows.now self.old.table.store.now j }
        ensures { Writes result self.old self.new (λ R B. node_at left R B j) }
    {
        let count = self.table.column(j, columns::COUNT);
        self.vector_head(j)?;
        self.members(j + 1, count, false, left)
    }

    // A dictionary, of which each couple is two values, one behind the other.
    #[cycle(written)]
    fn dictionary(&mut self, j: usize, left: usize) -> Result<(), Stop>
        requires { Of kind_dictionary self.old.table.rows.now self.old.table.store.now j }
        ensures { Writes result self.old self.new (λ R B. node_at left R B j) }
    {
        let table = self.table;
        let count = table.column(j, columns::COUNT);
        self.flagged(markers::DICTIONARY, count, table.column(j, columns::FLAG))?;
        self.members(j + 1, count * 2, false, left)
    }

    // The value of a row, where `left` values may still open.
    #[cycle(written)]
    fn value(&mut self, i: usize, left: usize) -> Result<(), Stop>
        requires { Fit self.old.table.rows.now self.old.table.store.now }
        ensures { Writes result self.old self.new (λ R B. value_at left R B i) }
    {
        if left == 0 {
            return Err(Stop::TooDeep);
        }
        let j = text::home_of(self.table.rows, i);
        match self.table.column(j, columns::KIND) {
            kinds::ARRAY => self.array(j, left - 1),
            kinds::OBJECT => self.object(j, left - 1),
            kinds::OBJECT_VECTOR => self.vector(j, left - 1),
            kinds::DICTIONARY => self.dictionary(j, left - 1),
            _ => self.plain(j),
        }
    }
}

// ---- the tree of row 0

// Measured, and written if it fits: of rows that are not refused.
fn write_root(table: Table, out: &mut [u8]) -> Written
    requires { Fit table.rows.now table.store.now }
    ensures { output result out.new ≡ write_call table.entry.rows.now table.entry.store.now out.old }
{
    let mut writer = Writer {
        table,
        out,
        at: 0,
        dry: true,
    };
    if let Err(stop) = writer.value(0, OPEN_LIMIT) {
        return Err(stop.refusal(writer.at));
    }
    let size = writer.at;
    writer.at = 0;
    writer.dry = false;
    // `run` of specs/Run gives the same place to a run that is dry and to one that is not: this one ends at `size` as well.
    let _ = writer.value(0, OPEN_LIMIT);
    Ok(size)
}

// The tree of row 0, unfolded: 1 for the rows, then for the store; 13 and 14; 9 and 10. A refusal leaves the output as it was.
pub fn write(table: Table, out: &mut [u8]) -> Written
    ensures { output result out.new ≡ write_call table.entry.rows.now table.entry.store.now out.old }
{
    if let Some(loan) = table.fault() {
        return Err(Refusal {
            number: refusals::BAD_LOAN,
            told: loan,
            place: 0,
        });
    }
    if let Err(fault) = judge::judge(table) {
        return Err(Refusal {
            number: fault.no,
            told: fault.row,
            place: 0,
        });
    }
    write_root(table, out)
}

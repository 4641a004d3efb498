// The numbers of AMF 3 as they stand on the wire, from bytes and to bytes. Each function answers for every input, and what it
// answers is its definition in specs/.

#![tactic(auto)]

pub mod markers;

ghost use Rattle.std.specs.Prelude.{◌≡◌, false, not, ◌+◌, ◌≤◌, ◌<◌, ◌^◌, leb, length};
ghost use Rattle.std.specs.Float.{binary64};
ghost use Rattle.std.specs.Float.Ieee.{of_bits, to_unsigned};
ghost use Rattle.std.proofs.lemmas.List.Edits.{sets};
ghost use Rattle.wire.specs.Put.{with1, put_at};
ghost use Rattle.wire.specs.U29.{part_of, u29_at, more_of, form_of, u29};
ghost use Rattle.wire.specs.Word.{size_of, shape_of};
ghost use Rattle.wire.specs.Sign.{integer_of, bits_of, column_of, of_column};
ghost use Rattle.wire.specs.Big.{bytes_at, number_at, digit_of, bytes_of};
ghost use Rattle.wire.specs.Date.{refused_date, moment_of, bounded};

// Whether `count` more fit behind `at` in `len`.
pub fn fits(len: usize, at: usize, count: usize) -> bool
    ensures { result ≡ leb (at + count) len }
{
    if len < at {
        return false;
    }
    count <= len - at
}

// ---- U29

// What is known of a number after one byte more.
#[derive(Clone, Copy, PartialEq, Eq)]
pub enum Part {
    More(usize),
    Whole(usize),
}

// The byte `b` of a U29, of which `left` more may come; those before it gave `n`. None: astray, the numbers in hand are no part of a U29.
pub fn u29_byte(left: usize, n: usize, b: u8) -> Option<Part>
    ensures { result ≡ part_of left n b }
{
    if 3 < left {
        return None;
    }
    let before = 7 * (3 - left);
    if n >> before != 0 {
        return None;
    }
    if left == 0 {
        return Some(Part::Whole((n << 8usize) | usize::from(b)));
    }
    if b & 0x80 == 0 {
        return Some(Part::Whole((n << 7usize) | usize::from(b)));
    }
    Some(Part::More((n << 7usize) | usize::from(b & 0x7f)))
}

// The U29 at a place, with the place behind it. None: the bytes end too early.
pub fn read_u29(src: &[u8], at: usize) -> Option<(usize, usize)>
    ensures { result ≡ u29_at src.now at }
{
    let mut left: usize = 3;
    let mut n: usize = 0;
    for p in at..src.len() {
        match u29_byte(left, n, src[p])? {
            Part::Whole(v) => return Some((v, p + 1)),
            Part::More(m) => {
                n = m;
                left -= 1;
            }
        }
    }
    None
}

// How many bytes of the shortest form of `n` stand before its last.
pub fn u29_more(n: usize) -> usize
    ensures { result ≡ more_of n }
{
    if n < 0x80 {
        return 0;
    }
    if n < 0x4000 {
        return 1;
    }
    if n < 0x20_0000 {
        return 2;
    }
    3
}

// The form of `n` with `k` bytes before the last: seven bits in each, and in the last one seven, or eight where it is the fourth.
fn put_form(out: &mut [u8], at: usize, n: usize, k: usize)
    requires { (k ≤ 3) × (at + k < length out.old) }
    ensures { out.new ≡ sets out.old at (form_of k n) }
{
    let last: usize = if k == 3 { 8 } else { 7 };
    let m = n >> last;
    for i in 0..k {
        out[at + i] = (((m >> (7 * (k - 1 - i))) & 0x7f) | 0x80) as u8;
    }
    out[at + k] = (n & ((1 << last) - 1)) as u8;
}

// Puts the shortest form of `n`, and gives the place behind it. None: it has no room, and nothing is put.
pub fn put_u29(out: &mut [u8], at: usize, n: usize) -> Option<usize>
    ensures { with1 result out.new ≡ put_at out.old at (u29 n) }
{
    let k = u29_more(n);
    if !fits(out.len(), at, k + 1) {
        return None;
    }
    put_form(out, at, n, k);
    Some(at + (k + 1))
}

// ---- size words

// A reference by number, or a length.
#[derive(Clone, Copy, PartialEq, Eq)]
pub enum Size {
    Old(usize),
    New(usize),
}

// What a size word says: its last bit tells a length from a reference.
pub fn size_of(w: usize) -> Size
    ensures { result ≡ size_of w }
{
    if w & 1 == 0 {
        return Size::Old(w >> 1usize);
    }
    Size::New(w >> 1usize)
}

// An object by number; a new one of a known trait, of an externalizable class, or of a trait with so many names, dynamic (1) or not: that is a number since a trait's
// entry, which C lends, has it so.
#[derive(Clone, Copy, PartialEq, Eq)]
pub enum Shape {
    Object(usize),
    Known(usize),
    External,
    Inline(usize, usize),
}

// What an object word says, by its last four bits.
pub fn shape_of(w: usize) -> Shape
    ensures { result ≡ shape_of w }
{
    if w & 1 == 0 {
        return Shape::Object(w >> 1usize);
    }
    if w & 2 == 0 {
        return Shape::Known(w >> 2usize);
    }
    if w & 4 == 0 {
        return Shape::Inline(w >> 4usize, (w >> 3usize) & 1);
    }
    Shape::External
}

// ---- sign

// The sign rule: the 29 bits of an integer are its remainder modulo 2^29.
const MODULUS: usize = 0x2000_0000;

// One half of the remainders is of integers from 0 up, the other of those below 0.
const HALF: usize = 0x1000_0000;

// The ends of the range.
const LEAST: i64 = -0x1000_0000;

const GREATEST: i64 = 0x0fff_ffff;

// The integer in the low 29 bits of `n`: the number from LEAST to GREATEST of which they are the remainder.
pub fn integer(n: usize) -> i64
    ensures { result ≡ integer_of n }
{
    let turned = (n % MODULUS + HALF) % MODULUS;
    (turned as i64) - (HALF as i64)
}

// The 29 bits of an integer: its remainder. A modulus is added to every number, so that none is negative; the remainder stays. None: it is out of the range.
pub fn integer_bits(v: i64) -> Option<usize>
    ensures { result ≡ bits_of v }
{
    if v < LEAST || GREATEST < v {
        return None;
    }
    Some(((v + (MODULUS as i64)) as usize) % MODULUS)
}

// The column of a signed number. Not From: both types are std's.
pub fn column(v: i64) -> usize
    ensures { result ≡ column_of v }
{
    v.cast_unsigned() as usize
}

// The signed number of a column.
pub fn of_column(x: usize) -> i64
    ensures { result ≡ of_column x }
{
    (x as u64).cast_signed()
}

// ---- big-endian numbers

// The `N` bytes at a place, with the place behind them. None: they are not all there.
fn bytes_at<const N: usize>(src: &[u8], at: usize) -> Option<([u8; N], usize)>
    ensures { result ≡ bytes_at N src.now at }
{
    let bytes: &[u8; N] = src.get(at..)?.first_chunk()?;
    Some((*bytes, at + N))
}

// The number in eight bytes at a place, with the place behind it. None: they are not all there. This compiles to one load and a swap of its bytes.
pub fn read_be64(src: &[u8], at: usize) -> Option<(usize, usize)>
    ensures { result ≡ number_at 8 src.now at }
{
    let (bytes, next) = bytes_at(src, at)?;
    Some((usize::from_be_bytes(bytes), next))
}

// The same of four bytes.
pub fn read_be32(src: &[u8], at: usize) -> Option<(usize, usize)>
    ensures { result ≡ number_at 4 src.now at }
{
    let (bytes, next) = bytes_at(src, at)?;
    Some((u32::from_be_bytes(bytes) as usize, next))
}

// The byte `b` of a number of eight, of which `left` more come; those before it gave `n`. None: astray, the numbers in hand are no part of one.
pub fn be64_byte(left: usize, n: usize, b: u8) -> Option<Part>
    ensures { result ≡ digit_of left n b }
{
    if 7 < left {
        return None;
    }
    let before = 8 * (7 - left);
    if n >> before != 0 {
        return None;
    }
    let next = (n << 8usize) | usize::from(b);
    if left == 0 {
        return Some(Part::Whole(next));
    }
    Some(Part::More(next))
}

// Stores bytes as a whole: a copy of slices tests first whether they overlap, which is slower.
fn store<const N: usize>(place: &mut [u8], bytes: [u8; N])
    requires { length place.old ≡ N }
    ensures { place.new ≡ bytes.entry }
{
    if let Some(whole) = place.as_mut_array() {
        *whole = bytes;
    }
}

// Puts bytes at a place, and gives the place behind them. None: they have no room, and nothing is put.
fn put_bytes<const N: usize>(out: &mut [u8], at: usize, bytes: &[u8; N]) -> Option<usize>
    ensures { with1 result out.new ≡ put_at out.old at bytes.now }
{
    if !fits(out.len(), at, N) {
        return None;
    }
    let next = at + N;
    store(&mut out[at..next], *bytes);
    Some(next)
}

// Puts the eight bytes of `n`, and gives the place behind them. None: they have no room, and nothing is put.
pub fn put_be64(out: &mut [u8], at: usize, n: usize) -> Option<usize>
    ensures { with1 result out.new ≡ put_at out.old at (bytes_of 8 n) }
{
    put_bytes(out, at, &n.to_be_bytes())
}

// The same of the low 32 bits of `n`, in four bytes.
pub fn put_be32(out: &mut [u8], at: usize, n: usize) -> Option<usize>
    ensures { with1 result out.new ≡ put_at out.old at (bytes_of 4 n) }
{
    put_bytes(out, at, &((n & 0xffff_ffff) as u32).to_be_bytes())
}

// ---- dates

// A double's sign bit, and the bits of its size.
const SIGN: usize = 0x8000_0000_0000_0000;

const SIZE: usize = 0x7fff_ffff_ffff_ffff;

// The size of an infinity; those of NaN are larger.
const INFINITE: usize = 0x7ff0_0000_0000_0000;

// The ends of the milliseconds' range, and the first whole part past it.
const EARLIEST: i64 = i64::MIN;

const LATEST: i64 = i64::MAX;

const PAST: usize = 0x8000_0000_0000_0000;

// Whether the bits are a date's: those of NaN and the infinities are none.
pub fn is_date(bits: usize) -> bool
    ensures { result ≡ not (refused_date bits) }
{
    bits & SIZE < INFINITE
}

// The whole part of a double without a sign, at most 2^64 - 1.
fn whole_part(size: usize) -> usize
    requires { (size < 2 ^ 63) × (refused_date size ≡ false) }
    ensures { result ≡ to_unsigned 64 (of_bits binary64 size) }
{
    let e = size >> 52usize;
    let m = (size & 0xf_ffff_ffff_ffff) | 0x10_0000_0000_0000;
    if e < 1023 {
        return 0;
    }
    if e <= 1075 {
        return m >> (1075 - e);
    }
    if e <= 1086 {
        return m << (e - 1075);
    }
    usize::MAX
}

// A whole part with its sign, held at the ends of the range.
fn signed(negative: bool, whole: usize) -> i64
    ensures { result ≡ bounded negative whole }
{
    if whole < PAST {
        if negative {
            return -(whole as i64);
        }
        return whole as i64;
    }
    if negative {
        return EARLIEST;
    }
    LATEST
}

// The milliseconds of a date's bits: by shifts, then the sign. None: no date has these bits.
pub fn moment_of(bits: usize) -> Option<i64>
    ensures { result ≡ moment_of bits }
{
    if !is_date(bits) {
        return None;
    }
    let whole = whole_part(bits & SIZE);
    Some(signed(SIGN <= bits, whole))
}

// What a reading that waits goes on with once a value, a key or a text is whole: the frames of the open values, and the strings. The frames are written at
// most once, when the step ends waiting.

#![tactic(auto)]

mod decisions;

ghost use Rattle.std.specs.Prelude.{◌≡◌, ◌∷◌, Ok, suc, ◌+◌, ◌*◌, ◌<◌, is_err, if◌then◌else◌};
ghost use Rattle.std.proofs.lemmas.List.Edits.{sets};
ghost use Rattle.rows.specs.Memory.{open_most, no_span};
ghost use Rattle.decide.specs.Spared.{NoLoan, OnlyMembers, OnlyMembersText, OnlyRows};
ghost use Rattle.format.specs.Decide as d;
ghost use Rattle.format.specs.Step as s;
ghost use Rattle.format.specs.Numbers.{frame_at, frame_width, frame_numbers, work_of, work, no_trait, with_use, with_text};
ghost use Rattle.format.specs.Codes.{mode_word, task_members};
ghost use Rattle.states.specs.Purposes.{IsText};
ghost use Rattle.resume.specs.Steps.{Steps, Back, is_waiting, Goes, Enters, Listed, ended, loans_of};

use format::{FRAME_WIDTH, Frame, Frames, Refusal, Work, modes, purposes, refusals, tasks};
use rows::{Cursor, Key, Span, Trait, columns};

// The bytes that come after the first: of a word, of a number.
pub const WORD_MORE: usize = 3;

pub const NUMBER_MORE: usize = 7;

// ---- a reading that is fed

// The frames of the open values, `depth` of them open; the loans; and the cursor. The loans stand one by one, and not as a `Loans`: what the
// references of a struct within this one hold in the end, no proof could tell.
#[derive(Drop)]
pub struct Feeding<'f, 'l> {
    pub frames: &'f mut Frames,
    pub depth: usize,
    pub rows: &'l mut [usize],
    pub store: &'l mut [u8],
    pub strings: &'l mut [usize],
    pub objects: &'l mut [usize],
    pub traits: &'l mut [usize],
    pub names: &'l mut [usize],
    pub cursor: Cursor,
}

// What it goes on with: it waits, with this work; or a value that stands in no other is finished.
// Not Option<Work>: that a value is finished is an answer, and `Ok(None)` would not say it.
#[derive(Clone, Copy, PartialEq, Eq)]
pub enum Next {
    Wait(Work),
    Finished,
}

// ---- frames

// What open value `i` still has to read. By hand: frames are numbers that C lends.
fn frame_at(frames: &Frames, i: usize) -> Frame
    requires { i < open_most }
    ensures { result ≡ frame_at frames.now i }
{
    let at = i * FRAME_WIDTH;
    Frame {
        task: frames[at],
        row: frames[at + 1],
        left: frames[at + 2],
        done: frames[at + 3],
        first: frames[at + 4],
        dynamic: frames[at + 5],
    }
}

// The frame of open value `i`.
fn put_frame(frames: &mut Frames, i: usize, f: Frame)
    requires { i < open_most }
    ensures { frames.new ≡ sets frames.old (i * frame_width) (frame_numbers f) }
{
    let at = i * FRAME_WIDTH;
    frames[at] = f.task;
    frames[at + 1] = f.row;
    frames[at + 2] = f.left;
    frames[at + 3] = f.done;
    frames[at + 4] = f.first;
    frames[at + 5] = f.dynamic;
}

// ---- the work of a mode

// A string is next: whose it is, and what its use holds beside the row.
pub fn string_work(purpose: usize, row: usize, kind: Trait, count: usize, done: usize) -> Work
    ensures { result ≡ work mode_word purpose row 3 0 no_span kind count done }
{
    Work {
        mode: modes::WORD,
        purpose,
        row,
        left: WORD_MORE,
        kind,
        count,
        done,
        ..Work::default()
    }
}

// The next value's marker, with its key.
fn marker_work(key: Key) -> Work
    ensures { result ≡ work_of (s.at_marker key) }
{
    Work {
        mode: modes::MARKER,
        purpose: key.mark,
        span: Span {
            begin: key.begin,
            size: key.size,
        },
        ..Work::default()
    }
}

impl Feeding<'_, '_> {
    // ---- frames

    // What the innermost open value still has to read; `depth` others are around it.
    fn innermost(&self) -> Frame
        requires { self.now.depth < open_most }
        ensures { result ≡ frame_at self.now.frames.now self.now.depth }
    {
        frame_at(self.frames, self.depth)
    }

    // ---- a refusal

    // A refusal puts the cursor back to this, and where nothing waits the number of open values is this again.
    pub fn put_back(
        &mut self,
        cursor: Cursor,
        depth: usize,
        a: Result<Next, Refusal>,
    ) -> Result<Next, Refusal>
        ensures answer { result ≡ a }
        ensures back { self.new ≡ record self.old { cursor = (if is_err a then cursor else self.old.cursor); depth = (if is_waiting a then self.old.depth else depth) } }
    {
        match a {
            Ok(Next::Wait(_)) => {}
            Ok(Next::Finished) => self.depth = depth,
            Err(_) => {
                self.cursor = cursor;
                self.depth = depth;
            }
        }
        a
    }

    // Where nothing waits the number of open values is this again.
    fn reopened(&mut self, depth: usize, a: Result<Next, Refusal>) -> Result<Next, Refusal>
        ensures answer { result ≡ a }
        ensures back { self.new ≡ record self.old { depth = (if is_waiting a then self.old.depth else depth) } }
    {
        if !matches!(a, Ok(Next::Wait(_))) {
            self.depth = depth;
        }
        a
    }

    // ---- tasks

    // The row ends, and its value is finished.
    fn finish(&mut self, row: usize) -> Result<Next, Refusal>
        ensures goes { Goes result self.old self.new (λ ts c m. s.on (d.on_rows (d.closed row) m c) m (λ y. ended)) }
        ensures spares { OnlyRows (loans_of self.old) (loans_of self.new) }
        ensures still { self.new.cursor ≡ self.old.cursor }
        ensures back { Back result self.old self.new }
    {
        self.closed(row)?;
        Ok(Next::Finished)
    }

    // A value is next, with the frame of the one around it.
    fn open_next(&mut self, f: Frame, key: Key) -> Next
        requires { self.old.depth < open_most }
        ensures goes { Goes (Ok result) self.old self.new (λ ts. s.wait (s.at_marker key) (f ∷ ts)) }
        ensures spares { NoLoan (loans_of self.old) (loans_of self.new) }
        ensures still { self.new.cursor ≡ self.old.cursor }
    {
        put_frame(self.frames, self.depth, f);
        self.depth += 1;
        Next::Wait(marker_work(key))
    }

    // Items of an array or a vector, or the keys of a dictionary.
    fn go_entries(&mut self, f: Frame) -> Result<Next, Refusal>
        requires open { self.old.depth < open_most }
        requires listed { Listed f.task }
        ensures goes { Goes result self.old self.new (λ ts. s.go ended ts (s.task_of f)) }
        ensures spares { OnlyRows (loans_of self.old) (loans_of self.new) }
        ensures still { self.new.cursor ≡ self.old.cursor }
        ensures back { Back result self.old self.new }
    {
        if f.left == 0 {
            return self.finish(f.row);
        }
        let rest = Frame {
            left: f.left - 1,
            first: 0,
            dynamic: 0,
            ..f
        };
        Ok(self.open_next(rest, Key::default()))
    }

    // Sealed members, and dynamic ones behind them.
    fn go_members(&mut self, f: Frame) -> Result<Next, Refusal>
        requires open { self.old.depth < open_most }
        requires members { f.task ≡ task_members }
        ensures goes { Goes result self.old self.new (λ ts. s.go ended ts (s.task_of f)) }
        ensures spares { OnlyRows (loans_of self.old) (loans_of self.new) }
        ensures still { self.new.cursor ≡ self.old.cursor }
        ensures back { Back result self.old self.new }
    {
        if f.left == 0 {
            if f.dynamic == 0 {
                return self.finish(f.row);
            }
            return Ok(Next::Wait(string_work(
                purposes::DYNAMIC_KEY,
                f.row,
                Trait::default(),
                0,
                0,
            )));
        }
        if !wire::fits(self.cursor.names, f.first, f.done) {
            return Err(decide::lost());
        }
        let key = self.sealed_key(f.first + f.done)?;
        let mut rest = f;
        rest.left = f.left - 1;
        Ok(self.open_next(rest, key))
    }

    // A task goes on with what it has left.
    fn go(&mut self, f: Frame) -> Result<Next, Refusal>
        requires { self.old.depth < open_most }
        ensures goes { Goes result self.old self.new (λ ts. s.go ended ts (s.task_of f)) }
        ensures spares { OnlyRows (loans_of self.old) (loans_of self.new) }
        ensures still { self.new.cursor ≡ self.old.cursor }
        ensures back { Back result self.old self.new }
    {
        match f.task {
            tasks::PAIRS => Ok(Next::Wait(string_work(
                purposes::KEY,
                f.row,
                Trait::default(),
                f.left,
                f.done,
            ))),
            tasks::DYNAMICS => Ok(Next::Wait(string_work(
                purposes::DYNAMIC_KEY,
                f.row,
                Trait::default(),
                0,
                f.done,
            ))),
            tasks::DENSE | tasks::VECTOR | tasks::KEYS => self.go_entries(f),
            tasks::MEMBERS => self.go_members(f),
            tasks::VALUES => {
                let pairs = Frame {
                    first: 0,
                    dynamic: 0,
                    ..f
                };
                Ok(self.open_next(pairs, Key::default()))
            }
            _ => Err(decide::lost()),
        }
    }

    // An entry of a task is counted in a column, after `f.done` others.
    fn count_entry(&mut self, f: Frame, col: usize, task: usize) -> Result<Frame, Refusal>
        ensures enters { Enters result self.old self.new
            (λ c m k. s.on (d.on_rows (d.counted f.row col f.done) m c) m (λ y. k (s.task_of (s.frame task f.row f.left (f.done + 1) f.first f.dynamic)))) }
        ensures spares { OnlyRows (loans_of self.old) (loans_of self.new) }
        ensures still { self.new.cursor ≡ self.old.cursor }
    {
        self.counted(f.row, col, f.done)?;
        Ok(Frame {
            task,
            done: f.done + 1,
            ..f
        })
    }

    // A key of a dictionary is finished: its value is next.
    fn key_done(&mut self, f: Frame) -> Result<Frame, Refusal>
        ensures enters { Enters result self.old self.new (s.entry (s.keys_of f.row f.left f.done)) }
        ensures spares { NoLoan (loans_of self.old) (loans_of self.new) }
        ensures still { self.new.cursor ≡ self.old.cursor }
    {
        self.key_end(f.row, f.done)?;
        Ok(Frame {
            task: tasks::VALUES,
            first: 0,
            dynamic: 0,
            ..f
        })
    }

    // The entry in work of a task is finished: what the task has left.
    fn entry_done(&mut self, f: Frame) -> Result<Frame, Refusal>
        ensures enters { Enters result self.old self.new (s.entry (s.task_of f)) }
        ensures spares { OnlyRows (loans_of self.old) (loans_of self.new) }
        ensures still { self.new.cursor ≡ self.old.cursor }
    {
        match f.task {
            tasks::PAIRS | tasks::VECTOR | tasks::MEMBERS => {
                self.count_entry(f, columns::COUNT, f.task)
            }
            tasks::DYNAMICS | tasks::DENSE => self.count_entry(f, columns::COUNT2, f.task),
            tasks::KEYS => self.key_done(f),
            tasks::VALUES => self.count_entry(f, columns::COUNT, tasks::KEYS),
            _ => Err(decide::lost()),
        }
    }

    // A value is finished: so are those around it whose last it was. `while`: `go` opens values, and moves `depth` itself.
    fn popping(&mut self) -> Result<Next, Refusal>
        requires { self.old.depth < suc open_most }
        ensures steps { Steps result self.old self.new s.pop }
        ensures spares { OnlyRows (loans_of self.old) (loans_of self.new) }
        ensures still { self.new.cursor ≡ self.old.cursor }
    {
        while 0 < self.depth {
            self.depth -= 1;
            let f = self.innermost();
            let rest = self.entry_done(f)?;
            if let Next::Wait(w) = self.go(rest)? {
                return Ok(Next::Wait(w));
            }
        }
        Ok(Next::Finished)
    }

    // The same, and a refusal leaves the values open that were; the cursor doesn't move.
    pub fn pop(&mut self) -> Result<Next, Refusal>
        requires { self.old.depth < suc open_most }
        ensures steps { Steps result self.old self.new s.pop }
        ensures spares { OnlyRows (loans_of self.old) (loans_of self.new) }
        ensures back { Back result self.old self.new }
    {
        let depth = self.depth;
        let a = self.popping();
        self.reopened(depth, a)
    }

    // The value in work goes on with a task.
    pub fn onward(&mut self, f: Frame) -> Result<Next, Refusal>
        requires { self.old.depth < open_most }
        ensures steps { Steps result self.old self.new (λ ts. s.onward ts (s.task_of f)) }
        ensures spares { OnlyRows (loans_of self.old) (loans_of self.new) }
        ensures back { Back result self.old self.new }
    {
        match self.go(f)? {
            Next::Wait(w) => Ok(Next::Wait(w)),
            Next::Finished => self.pop(),
        }
    }

    // The value in work is finished with its row.
    pub fn close(&mut self, row: usize) -> Result<Next, Refusal>
        requires { self.old.depth < open_most }
        ensures steps { Steps result self.old self.new (λ ts. s.ends ts (d.on_rows (d.closed row))) }
        ensures spares { OnlyRows (loans_of self.old) (loans_of self.new) }
        ensures back { Back result self.old self.new }
    {
        self.closed(row)?;
        self.pop()
    }

    // ---- strings

    // A key of pairs is there, which have this frame: an empty one ends them.
    fn keyed(&mut self, f: Frame, p: Span) -> Result<Next, Refusal>
        requires { self.old.depth < open_most }
        ensures steps { (g : s.Pairing) → f ≡ s.frame_of (s.pairs_of g) → Steps result self.old self.new (λ ts. s.keyed ts g p p.size) }
        ensures spares { OnlyRows (loans_of self.old) (loans_of self.new) }
    {
        if p.size != 0 {
            return Ok(self.open_next(f, Key::from(p)));
        }
        if f.task == tasks::DYNAMICS {
            return self.close(f.row);
        }
        self.onward(Frame {
            task: tasks::DENSE,
            done: 0,
            ..f
        })
    }

    // The members of an object of a trait.
    pub fn members_of(&mut self, row: usize, t: Trait) -> Result<Next, Refusal>
        requires { self.old.depth < open_most }
        ensures steps { Steps result self.old self.new (λ ts. s.members ts row t) }
        ensures spares { OnlyRows (loans_of self.old) (loans_of self.new) }
        ensures back { Back result self.old self.new }
    {
        self.onward(Frame {
            task: tasks::MEMBERS,
            row,
            left: t.count,
            done: 0,
            first: t.first,
            dynamic: t.dynamic,
        })
    }

    // So many names of a trait are to come.
    fn naming(&mut self, row: usize, t: Trait, n: usize) -> Result<Next, Refusal>
        requires { self.old.depth < open_most }
        ensures steps { Steps result self.old self.new (λ ts. s.naming ts row t n) }
        ensures spares { OnlyMembers (loans_of self.old) (loans_of self.new) }
    {
        if n != 0 {
            return Ok(Next::Wait(string_work(purposes::NAME, row, t, n - 1, 0)));
        }
        self.trait_end(t)?;
        self.members_of(row, t)
    }

    // A string value is there.
    fn string_there(&mut self, row: usize, p: Span) -> Result<Next, Refusal>
        requires { self.old.depth < open_most }
        ensures steps { Steps result self.old self.new (λ ts. s.had ts (s.for_string row) p) }
        ensures spares { OnlyRows (loans_of self.old) (loans_of self.new) }
    {
        self.bodied(row, p)?;
        self.close(row)
    }

    // The class of an object with `n` names is there.
    fn class_there(
        &mut self,
        row: usize,
        n: usize,
        dynamic: usize,
        p: Span,
    ) -> Result<Next, Refusal>
        requires { self.old.depth < open_most }
        ensures steps { Steps result self.old self.new (λ ts. s.had ts (s.for_class row n dynamic) p) }
        ensures spares { OnlyMembers (loans_of self.old) (loans_of self.new) }
    {
        let t = decide::trait_of(self.cursor, p, n, dynamic);
        self.object_class(row, t)?;
        self.naming(row, t, n)
    }

    // A name of a trait is there, and `n` more are to come.
    fn name_there(&mut self, row: usize, t: Trait, n: usize, p: Span) -> Result<Next, Refusal>
        requires { self.old.depth < open_most }
        ensures steps { Steps result self.old self.new (λ ts. s.had ts (s.for_name row t n) p) }
        ensures spares { OnlyMembers (loans_of self.old) (loans_of self.new) }
    {
        self.named(p)?;
        self.naming(row, t, n)
    }

    // The class of a vector with `n` entries is there.
    fn vector_there(&mut self, row: usize, n: usize, p: Span) -> Result<Next, Refusal>
        requires { self.old.depth < open_most }
        ensures steps { Steps result self.old self.new (λ ts. s.had ts (s.for_vector row n) p) }
        ensures spares { OnlyRows (loans_of self.old) (loans_of self.new) }
    {
        let star = self.starred(p)?;
        self.vector_class(row, star, p)?;
        self.onward(Frame {
            task: tasks::VECTOR,
            row,
            left: n,
            ..Frame::default()
        })
    }

    // A string is there, for its use.
    fn having(&mut self, w: Work, p: Span) -> Result<Next, Refusal>
        requires { self.old.depth < open_most }
        ensures steps { Steps result self.old self.new (λ ts c m. with_use (s.broken m) w (λ u. s.had ts u p c m)) }
        ensures spares { OnlyMembers (loans_of self.old) (loans_of self.new) }
    {
        let pairs = Frame {
            row: w.row,
            done: w.done,
            ..Frame::default()
        };
        match w.purpose {
            purposes::STRING => self.string_there(w.row, p),
            purposes::KEY => self.keyed(
                Frame {
                    task: tasks::PAIRS,
                    left: w.count,
                    ..pairs
                },
                p,
            ),
            purposes::DYNAMIC_KEY => self.keyed(
                Frame {
                    task: tasks::DYNAMICS,
                    ..pairs
                },
                p,
            ),
            purposes::CLASS => self.class_there(w.row, w.count, w.kind.dynamic, p),
            purposes::EXTERNAL => Err(decide::refuse(self.cursor, refusals::EXTERNALIZABLE, 0)),
            purposes::NAME => self.name_there(w.row, w.kind, w.count, p),
            purposes::VECTOR_CLASS => self.vector_there(w.row, w.count, p),
            _ => Err(decide::lost()),
        }
    }

    // The same, and a refusal leaves the cursor and the open values as they were.
    pub fn had(&mut self, w: Work, p: Span) -> Result<Next, Refusal>
        requires { self.old.depth < open_most }
        ensures steps { Steps result self.old self.new (λ ts c m. with_use (s.broken m) w (λ u. s.had ts u p c m)) }
        ensures spares { OnlyMembers (loans_of self.old) (loans_of self.new) }
        ensures back { Back result self.old self.new }
    {
        let (cursor, depth) = (self.cursor, self.depth);
        let a = self.having(w, p);
        self.put_back(cursor, depth, a)
    }

    // The last byte of a text, with the verdict.
    fn text_ending(&mut self, w: Work, valid: bool) -> Result<Next, Refusal>
        requires open { self.old.depth < open_most }
        requires text { IsText w }
        ensures steps { Steps result self.old self.new (λ ts c m. with_text (s.broken m) w (λ x. s.text_done ts x w.span valid c m)) }
        ensures spares { OnlyMembersText (loans_of self.old) (loans_of self.new) }
    {
        if w.purpose == purposes::XML {
            self.judged(valid)?;
            return self.close(w.row);
        }
        let p = self.text_end(w.span, valid)?;
        self.having(w, p)
    }

    // The same, and a refusal leaves the cursor and the open values as they were.
    pub fn text_done(&mut self, w: Work, valid: bool) -> Result<Next, Refusal>
        requires open { self.old.depth < open_most }
        requires text { IsText w }
        ensures steps { Steps result self.old self.new (λ ts c m. with_text (s.broken m) w (λ x. s.text_done ts x w.span valid c m)) }
        ensures spares { OnlyMembersText (loans_of self.old) (loans_of self.new) }
        ensures back { Back result self.old self.new }
    {
        let (cursor, depth) = (self.cursor, self.depth);
        let a = self.text_ending(w, valid);
        self.put_back(cursor, depth, a)
    }
}

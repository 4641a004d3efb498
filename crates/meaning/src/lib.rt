// What the definitions mean, as laws on them: proofs/Meaning.antt and others. The one function is no code of the library: a crate has to have one.

#![tactic(auto)]

ghost use Rattle.std.specs.Prelude.{◌≡◌};

// How many things are shown of them: reading means the standard, a finished table can be written, and what is written reads back.
pub fn count() -> usize
    ensures { result ≡ 3 }
{
    3
}

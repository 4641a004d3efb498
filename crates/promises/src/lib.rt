// The demands as theorems on the definitions: proofs/Demands.antt. The one function is no code of the library: a crate has to have one.

#![tactic(auto)]

ghost use Rattle.std.specs.Prelude.{◌≡◌};

// How many demands there are.
pub fn count() -> usize
    ensures { result ≡ 3 }
{
    3
}

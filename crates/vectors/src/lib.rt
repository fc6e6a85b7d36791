// The vectors of tests/vectors, computed from the definitions (proofs/).
#![tactic(auto)]

ghost use Rattle.std.specs.Prelude.{◌≡◌};

// A constant, for a crate has code: how many there were with request a; the crate has all of tests/vectors now.
pub fn count() -> u64
    ensures { result ≡ 85 }
{
    85
}

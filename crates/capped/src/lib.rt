// Numbers of any size, cut down to 32 bits: one that is too large for its type is still out of range, and so keeps its reason.
#![tactic(auto)]

ghost use Rattle.std.specs.Prelude.{◌≡◌};
ghost use Rattle.capped.specs.Capped.{capped};

// A number of 64 bits, or the largest of 32.
pub fn cap(n: u64) -> u32
    ensures { result ≡ capped n }
{
    if n < 4294967295 { n as u32 } else { 4294967295 }
}

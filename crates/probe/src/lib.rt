// The comparison of texts by itself, for `make bench` to time and for the second program to hold against its own. It has an archive of
// its own, that of `probe_c`, and is no part of the one that users link.
#![tactic(auto)]

ghost use Rattle.std.specs.Prelude.{◌≡◌, cond};
ghost use Rattle.rules.specs.Names.{same_text};

// 1 where two texts are the same without case, and 0 where they are not.
pub fn probe_same_text(a: &[u8], b: &[u8]) -> u32
    ensures { result ≡ cond (same_text a.now b.now) 1 0 }
{
    u32::from(octets::same_text(a, b))
}

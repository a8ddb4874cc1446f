// What `make bench` and the second program link: `probe::probe_same_text` under its own name, with the same clause.
#![tactic(auto)]

ghost use Rattle.std.specs.Prelude.{◌≡◌, cond};
ghost use Rattle.rules.specs.Names.{same_text};

// 1 where two texts are the same without case, and 0 where they are not.
#[unsafe(no_mangle)]
pub extern "C" fn probe_same_text(a: &[u8], b: &[u8]) -> u32
    ensures { result ≡ cond (same_text a.now b.now) 1 0 }
{
    probe::probe_same_text(a, b)
}

// The strings of all issuers, one by one.
ghost use Rattle.std.specs.Prelude.{◌≡◌, length};
ghost use Rattle.std.specs.Iterator.{YieldsFirstRef, item_count};
ghost use Rattle.rules.specs.Bytes.{cut, sum};

// What is left of them.
#[derive(Drop)]
pub struct Strings<'a> {
    pub lengths: &'a [usize],
    pub bytes: &'a [u8],
    ghost whole: { sum lengths.now ≡ length bytes.now },
}

impl<'a> Iterator for Strings<'a> {
    type Item = &'a [u8];

    ghost next_gives = { YieldsFirstRef (λ s. cut s.lengths.now s.bytes.now) };

    ghost remaining = { item_count (λ s. cut s.lengths.now s.bytes.now) };

    #[tactic(auto, using(crate::proofs::Laws::laws))]
    fn next(&mut self) -> Option<&'a [u8]> {
        let (length, lengths) = self.lengths.split_first()?;
        let (string, bytes) = self.bytes.split_at(*length);
        *self = Strings { lengths, bytes };
        Some(string)
    }
}

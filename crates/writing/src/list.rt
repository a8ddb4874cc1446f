// A list that is asked for, name by name.
ghost use Rattle.std.specs.Prelude.{◌≡◌, ◌<◌, ◌*◌, [], ◌∷◌, ◌++◌, true, false, length, MatchOption, MatchResult, IfOk};
ghost use Rattle.rules.specs.Bytes.{sum};
ghost use Rattle.rules.specs.Writing.{request, agree};
ghost use Rattle.writing.specs.declared.WriteRefusal.TheVariants.{NotAName};

use crate::WriteRefusal;
use octets::sums_to;

// A name that is asked for: its kind, and its texts end to end beside their lengths.
#[derive(Clone, Copy)]
pub struct Name<'a> {
    pub kind: u8,
    pub lengths: &'a [usize],
    pub texts: &'a [u8],
    ghost whole: { sum lengths.now ≡ length texts.now },
}

// Names that are asked for: their kinds, so many lengths for each, and their texts end to end.
#[derive(Clone, Copy)]
pub struct Names<'a> {
    pub per: usize,
    pub kinds: &'a [u8],
    pub lengths: &'a [usize],
    pub texts: &'a [u8],
    ghost many: { length lengths.now ≡ per * length kinds.now },
    ghost whole: { sum lengths.now ≡ length texts.now },
}

impl<'a> Names<'a> {
    // The names of lists that agree; "lists that disagree .. are 22".
    #[tactic(auto, using(crate::proofs::Cutting::laws))]
    pub fn agreeing(
        per: usize,
        kinds: &'a [u8],
        lengths: &'a [usize],
        texts: &'a [u8],
    ) -> Result<Names<'a>, WriteRefusal>
        requires { 0 < per }
        ensures cases { MatchResult result (λ names. agree per (request kinds.now lengths.now texts.now) ≡ true) (λ refusal. (refusal ≡ NotAName) × (agree per (request kinds.now lengths.now texts.now) ≡ false)) }
        ensures same { IfOk result (λ names. (names.per ≡ per) × (names.kinds.now ≡ kinds.now) × (names.lengths.now ≡ lengths.now) × (names.texts.now ≡ texts.now)) }
    {
        let many = lengths.len() / per == kinds.len() && lengths.len() % per == 0;
        if !many || !sums_to(lengths, texts.len()) {
            return Err(WriteRefusal::NotAName);
        }
        Ok(Names {
            per,
            kinds,
            lengths,
            texts,
        })
    }

    // The first name, and the others.
    pub fn split_first(self) -> Option<(Name<'a>, Names<'a>)>
        ensures { MatchOption result (self.entry.kinds.now ≡ []) (λ p. (self.entry.kinds.now ≡ p.0.kind ∷ p.1.kinds.now) × (self.entry.lengths.now ≡ p.0.lengths.now ++ p.1.lengths.now) × (self.entry.texts.now ≡ p.0.texts.now ++ p.1.texts.now) × (length p.0.lengths.now ≡ self.entry.per) × (p.1.per ≡ self.entry.per)) }
    {
        let (kind, kinds) = self.kinds.split_first()?;
        let (lengths, other_lengths) = self.lengths.split_at(self.per);
        let (texts, other_texts) = self.texts.split_at(lengths.iter().sum());
        let name = Name {
            kind: *kind,
            lengths,
            texts,
        };
        let others = Names {
            per: self.per,
            kinds,
            lengths: other_lengths,
            texts: other_texts,
        };
        Some((name, others))
    }
}

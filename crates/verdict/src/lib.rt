// The verdict on a certificate: how it ends, its six numbers, and the witness's text as a part of the certificate's own bytes.
#![tactic(auto, using(crate::proofs::Laws::laws))]

ghost use Rattle.std.specs.Prelude.{◌≡◌, true, length};
ghost use Rattle.std.proofs.Math.Option.{some};
ghost use Rattle.rules.specs.Seen.{lengths_fit};
ghost use Rattle.rules.specs.Verdict.{witness_part, witness_text, witness_place};
ghost use Rattle.reading.specs.Strings.{read_san, read_constraints};
ghost use Rattle.reading.specs.Calls.{inputs, outcome_on, verdict_on, witness_text_on, witness_part_on, witness_place_on};
ghost use Rattle.der.specs.Runs.{validated};
ghost use Rattle.verdict.specs.Judging.{constraints_long, any_long, subject_read, constraints_read, first_refusal, SmallWitness, Small, SmallNumbers, SmallPlace};

use constrained::first_breach;
use issuers::{lengths_fit, strings_of};
use pairs::first_pair;
use records::good_records;
use rules::{
    CONSTRAINTS_LIMIT, Outcome, Place, RECORDS_LIMIT, Refusal, SAN_LIMIT, SUBJECT_LIMIT, Verdict,
    Witness,
};
use strings::{constraints_count, san_count, subject_count};

// What a verdict is asked on: the strings of a certificate, the constraints of all issuers end to end beside their lengths, and our
// reference records.
#[derive(Clone, Copy)]
pub struct Inputs<'a, 'b> {
    pub san: &'a [u8],
    pub subject: &'a [u8],
    pub constraints: &'b [u8],
    pub lengths: &'b [usize],
    pub references: &'b [u8],
}

// "a ninth, or lengths with another sum, is 7, and each keeps its own length limit"
#[tactic(auto, using(crate::proofs::Laws::lengths_wrong, crate::proofs::Laws::lengths_each))]
fn constraints_long(lengths: &[usize], size: usize) -> bool
    ensures { result ≡ constraints_long lengths.now size }
{
    !lengths_fit(lengths, size) || lengths.iter().any(|&length| CONSTRAINTS_LIMIT < length)
}

// "Longest inputs, in bytes: SAN 16,384; subject 4,096; constraints 16,384; references 5,120. One byte more is answer 7."
fn any_long(i: Inputs) -> bool
    ensures { result ≡ any_long i.entry.references.now i.entry.san.now i.entry.subject.now i.entry.constraints.now i.entry.lengths.now }
{
    RECORDS_LIMIT < i.references.len()
        || SAN_LIMIT < i.san.len()
        || SUBJECT_LIMIT < i.subject.len()
        || constraints_long(i.lengths, i.constraints.len())
}

// Whether the SAN is absent or readable.
fn san_read(s: &[u8]) -> bool
    ensures { result ≡ validated read_san s.now }
{
    s.is_empty() || san_count(s).is_ok()
}

// Whether the subject is readable. "It is never absent".
fn subject_read(s: &[u8]) -> bool
    ensures { result ≡ subject_read s.now }
{
    subject_count(s).is_ok()
}

// Whether one issuer's constraints are absent or readable.
fn string_read(s: &[u8]) -> bool
    ensures { result ≡ validated read_constraints s.now }
{
    s.is_empty() || constraints_count(s).is_ok()
}

// Whether the constraints of every issuer are.
#[tactic(auto, using(crate::proofs::Laws::read_each, crate::proofs::Laws::read_never))]
fn constraints_read(constraints: &[u8], lengths: &[usize]) -> bool
    requires { lengths_fit lengths.now (length constraints.now) ≡ true }
    ensures { result ≡ constraints_read constraints.now lengths.now }
{
    match strings_of(lengths, constraints) {
        Some(mut strings) => strings.all(string_read),
        None => false,
    }
}

// "Order for a verdict: 7 for any of the four inputs, then 6, 3, 4, 5": the first that applies. Each input is validated here, once.
#[tactic(auto, using(crate::proofs::Laws::refusals))]
fn validate(i: Inputs) -> Result<(), Refusal>
    ensures { result ≡ first_refusal i.entry.references.now i.entry.san.now i.entry.subject.now i.entry.constraints.now i.entry.lengths.now }
{
    if any_long(i) {
        return Err(Refusal::InputTooLong);
    }
    if !good_records(i.references) {
        return Err(Refusal::RecordsUnreadable);
    }
    if !san_read(i.san) {
        return Err(Refusal::SanUnreadable);
    }
    if !subject_read(i.subject) {
        return Err(Refusal::SubjectUnreadable);
    }
    if !constraints_read(i.constraints, i.lengths) {
        return Err(Refusal::ConstraintsUnreadable);
    }
    Ok(())
}

// How the verdict ends: the refusals, then the constraints, "even if another name would match", then the first pair.
#[tactic(auto, using(crate::proofs::Laws::outcomes))]
pub fn outcome(i: Inputs) -> Outcome
    ensures { (result ≡ outcome_on (inputs i.entry.san.now i.entry.subject.now i.entry.constraints.now (some i.entry.lengths.now) i.entry.references.now)) × Small i.entry.san.now i.entry.subject.now result }
{
    if let Err(refusal) = validate(i) {
        return Outcome::Refused(refusal.into());
    }
    if let Some(breach) = first_breach(i.san, i.constraints, i.lengths) {
        return Outcome::Broken(breach);
    }
    match first_pair(i.references, i.san, i.subject) {
        Some(witness) => Outcome::Matched(witness),
        None => Outcome::Mismatched,
    }
}

// "A verdict is five numbers: answer, reference index, presented index, start, length", and the issuer's index.
pub fn verdict(i: Inputs) -> Verdict
    ensures { (result ≡ verdict_on (inputs i.entry.san.now i.entry.subject.now i.entry.constraints.now (some i.entry.lengths.now) i.entry.references.now)) × SmallNumbers result }
{
    outcome(i).into()
}

// Where the witness's text lies in its string; zeros on any answer but 0.
#[tactic(auto, unfolding(rules::specs::Verdict::witness_part))]
pub fn text_of(o: Outcome) -> Place
    ensures { result ≡ witness_part o }
{
    match o {
        Outcome::Matched(witness) => witness.text,
        Outcome::Refused(_) | Outcome::Broken(_) | Outcome::Mismatched => Place {
            start: 0,
            length: 0,
        },
    }
}

// Where the text of a verdict's witness lies, for callers that cannot be handed a part of a slice.
#[tactic(auto, using(crate::proofs::Laws::texts))]
pub fn text_place(i: Inputs) -> Place
    ensures { (result ≡ witness_part_on (inputs i.entry.san.now i.entry.subject.now i.entry.constraints.now (some i.entry.lengths.now) i.entry.references.now)) × SmallPlace result }
{
    text_of(outcome(i))
}

// A witness's text, as a part of the string that it lies in.
#[tactic(auto, using(crate::proofs::Laws::texts))]
fn text_in<'a>(san: &'a [u8], subject: &'a [u8], witness: Witness) -> &'a [u8]
    requires { SmallWitness san.now subject.now witness }
    ensures bytes { result.now ≡ witness_text san.now subject.now (Outcome.Matched witness) }
    ensures place { result.ref_ptr ≡ witness_place san.entry.ref_ptr subject.entry.ref_ptr (Outcome.Matched witness) }
{
    let start = witness.text.start;
    let end = start + witness.text.length;
    if witness.subject {
        &subject[start..end]
    } else {
        &san[start..end]
    }
}

// The text of an outcome: "On any answer but 0 that part is empty, at the start of the SAN."
#[tactic(auto, using(crate::proofs::Laws::texts))]
fn shown<'a>(san: &'a [u8], subject: &'a [u8], o: Outcome) -> &'a [u8]
    requires { Small san.now subject.now o }
    ensures bytes { result.now ≡ witness_text san.now subject.now o }
    ensures place { result.ref_ptr ≡ witness_place san.entry.ref_ptr subject.entry.ref_ptr o }
{
    match o {
        Outcome::Matched(witness) => text_in(san, subject, witness),
        Outcome::Refused(_) | Outcome::Broken(_) | Outcome::Mismatched => &san[..0],
    }
}

// "The witness's text (the content of the dNSName or URI, the IA5String of the SRVName, the CN's value) is handed back as a part
// of the certificate's own bytes."
#[tactic(auto, using(crate::proofs::Laws::texts))]
pub fn witness<'a>(i: Inputs<'a, '_>) -> &'a [u8]
    ensures bytes { result.now ≡ witness_text_on (inputs i.entry.san.now i.entry.subject.now i.entry.constraints.now (some i.entry.lengths.now) i.entry.references.now) }
    ensures place { result.ref_ptr ≡ witness_place_on (inputs i.entry.san.now i.entry.subject.now i.entry.constraints.now (some i.entry.lengths.now) i.entry.references.now) i.entry.san.ref_ptr i.entry.subject.ref_ptr }
{
    shown(i.san, i.subject, outcome(i))
}

// What a C program calls, as a library: `beckethand_c` exports each function under its name, and include/beckethand.h says each call in
// words. Each function of a verdict takes the four strings and the lengths of the constraints, and answers one number, or all of them.
#![tactic(auto, using(crate::proofs::Laws::laws))]

ghost use Rattle.std.specs.Prelude.{◌≤◌, ◌≡◌, length};
ghost use Rattle.rules.specs.Numbers.{san_limit};
ghost use Rattle.rules.specs.Records.{shown};
ghost use Rattle.rules.specs.Seen.{lengths_from_c};
ghost use Rattle.rules.specs.Verdict.{with_place, all_numbers};
ghost use Rattle.rules.specs.Viewer.{view_numbers};
ghost use Rattle.rules.specs.Writing.{request, san_writer, record_writer, written_by, buffer_by};
ghost use Rattle.reading.specs.Calls.{inputs, outcome_on, listing_on, table_on, opening_on, view_on};
ghost use Rattle.verdict.specs.Judging.{Small, SmallNumbers, SmallPlace};

use issuers::lengths_from_c;
use rules::{Listed, Outcome, Place, Refusal, Row, Verdict, VerdictNumbers, ViewNumbers, Written};
use verdict::Inputs;

// The version of these calls: major * 10000 + minor * 100 + patch. BECKETHAND_VERSION of include/beckethand.h is the same number.
pub fn beckethand_version() -> u32
    ensures { result ≡ 10100 }
{
    10100
}

// A number that fits.
fn narrow(n: usize) -> u32
    requires { n ≤ san_limit }
    ensures { result ≡ n }
{
    n as u32
}

// How the verdict ends, by the lengths that C hands over.
fn outcome_by(
    san: &[u8],
    subject: &[u8],
    constraints: &[u8],
    lengths: &[u8],
    references: &[u8],
) -> Outcome
    ensures { (result ≡ outcome_on (inputs san.now subject.now constraints.now (lengths_from_c lengths.now) references.now))
        × Small san.now subject.now result }
{
    let lengths = lengths_from_c(lengths);
    verdict::outcome(Inputs {
        san,
        subject,
        constraints,
        lengths: lengths.as_slice(),
        references,
    })
}

// The numbers and the text's place side by side.
fn with_place(v: Verdict, text: Place) -> VerdictNumbers
    requires small_numbers { SmallNumbers v }
    requires small_place { SmallPlace text }
    ensures { result ≡ with_place v text }
{
    VerdictNumbers {
        answer: narrow(v.answer),
        reference: narrow(v.reference),
        presented: narrow(v.presented),
        start: narrow(v.start),
        length: narrow(v.length),
        issuer: narrow(v.issuer),
        text_start: narrow(text.start),
        text_length: narrow(text.length),
    }
}

// All numbers, from one outcome.
pub fn beckethand_verdict(
    san: &[u8],
    subject: &[u8],
    constraints: &[u8],
    lengths: &[u8],
    references: &[u8],
) -> VerdictNumbers
    ensures { result ≡ all_numbers (outcome_on (inputs san.now subject.now constraints.now (lengths_from_c lengths.now) references.now)) }
{
    let o = outcome_by(san, subject, constraints, lengths, references);
    with_place(Verdict::from(o), verdict::text_of(o))
}

// The verdict's answer.
pub fn beckethand_answer(
    san: &[u8],
    subject: &[u8],
    constraints: &[u8],
    lengths: &[u8],
    references: &[u8],
) -> u32
    ensures { result ≡ (all_numbers (outcome_on (inputs san.now subject.now constraints.now (lengths_from_c lengths.now) references.now))).answer }
{
    beckethand_verdict(san, subject, constraints, lengths, references).answer
}

// The index of the reference that matches.
pub fn beckethand_reference(
    san: &[u8],
    subject: &[u8],
    constraints: &[u8],
    lengths: &[u8],
    references: &[u8],
) -> u32
    ensures { result ≡ (all_numbers (outcome_on (inputs san.now subject.now constraints.now (lengths_from_c lengths.now) references.now))).reference }
{
    beckethand_verdict(san, subject, constraints, lengths, references).reference
}

// The index of the presented identifier that it matches, or of the first that breaks the constraints of an issuer.
pub fn beckethand_presented(
    san: &[u8],
    subject: &[u8],
    constraints: &[u8],
    lengths: &[u8],
    references: &[u8],
) -> u32
    ensures { result ≡ (all_numbers (outcome_on (inputs san.now subject.now constraints.now (lengths_from_c lengths.now) references.now))).presented }
{
    beckethand_verdict(san, subject, constraints, lengths, references).presented
}

// Where the identifier's DER element starts.
pub fn beckethand_start(
    san: &[u8],
    subject: &[u8],
    constraints: &[u8],
    lengths: &[u8],
    references: &[u8],
) -> u32
    ensures { result ≡ (all_numbers (outcome_on (inputs san.now subject.now constraints.now (lengths_from_c lengths.now) references.now))).start }
{
    beckethand_verdict(san, subject, constraints, lengths, references).start
}

// How long that element is.
pub fn beckethand_length(
    san: &[u8],
    subject: &[u8],
    constraints: &[u8],
    lengths: &[u8],
    references: &[u8],
) -> u32
    ensures { result ≡ (all_numbers (outcome_on (inputs san.now subject.now constraints.now (lengths_from_c lengths.now) references.now))).length }
{
    beckethand_verdict(san, subject, constraints, lengths, references).length
}

// The index of the issuer whose constraints are broken.
pub fn beckethand_issuer(
    san: &[u8],
    subject: &[u8],
    constraints: &[u8],
    lengths: &[u8],
    references: &[u8],
) -> u32
    ensures { result ≡ (all_numbers (outcome_on (inputs san.now subject.now constraints.now (lengths_from_c lengths.now) references.now))).issuer }
{
    beckethand_verdict(san, subject, constraints, lengths, references).issuer
}

// Where the witness's text starts.
pub fn beckethand_text_start(
    san: &[u8],
    subject: &[u8],
    constraints: &[u8],
    lengths: &[u8],
    references: &[u8],
) -> u32
    ensures { result ≡ (all_numbers (outcome_on (inputs san.now subject.now constraints.now (lengths_from_c lengths.now) references.now))).text_start }
{
    beckethand_verdict(san, subject, constraints, lengths, references).text_start
}

// How long it is.
pub fn beckethand_text_length(
    san: &[u8],
    subject: &[u8],
    constraints: &[u8],
    lengths: &[u8],
    references: &[u8],
) -> u32
    ensures { result ≡ (all_numbers (outcome_on (inputs san.now subject.now constraints.now (lengths_from_c lengths.now) references.now))).text_length }
{
    beckethand_verdict(san, subject, constraints, lengths, references).text_length
}

// The record reader's answer.
pub fn beckethand_record_answer(references: &[u8], index: usize) -> u32
    ensures { result ≡ (shown references.now index).answer }
{
    narrow(records::show(references, index).answer)
}

// The kind of the record at an index.
pub fn beckethand_record_kind(references: &[u8], index: usize) -> u32
    ensures { result ≡ (shown references.now index).kind }
{
    narrow(records::show(references, index).kind)
}

// The length of its service.
pub fn beckethand_record_service_length(references: &[u8], index: usize) -> u32
    ensures { result ≡ (shown references.now index).service }
{
    narrow(records::show(references, index).service)
}

// The length of its domain.
pub fn beckethand_record_domain_length(references: &[u8], index: usize) -> u32
    ensures { result ≡ (shown references.now index).domain }
{
    narrow(records::show(references, index).domain)
}

// The listing of one of the three certificate strings: `which` is 0 for the SAN, 1 for the subject, else the constraints.
pub fn beckethand_list(table: &mut [Row], bytes: &[u8], which: usize) -> Listed
    ensures { (result ≡ listing_on which bytes.now (length table.old))
        × (table.new ≡ table_on which bytes.now table.old) }
{
    listing::list(table, bytes, which)
}

// How a viewer of such a string opens: 0, or why it is refused.
pub fn beckethand_opening(bytes: &[u8], which: usize) -> u32
    ensures { result ≡ opening_on which bytes.now }
{
    narrow(viewer::opening(bytes, which))
}

// What a viewer shows from a position, and its position after that.
pub fn beckethand_view(bytes: &[u8], which: usize, at: usize) -> ViewNumbers
    ensures { result ≡ view_numbers (view_on which bytes.now at) }
{
    viewer::viewed(bytes, which, at).into()
}

// The writer of SAN values.
pub fn beckethand_write_san(
    buffer: &mut [u8],
    texts: &[u8],
    lengths: &[usize],
    kinds: &[u8],
) -> Written
    ensures value { result ≡ written_by san_writer (request kinds.now lengths.now texts.now) (length buffer.old) }
    ensures buffer_after { buffer.new ≡ buffer_by san_writer (request kinds.now lengths.now texts.now) buffer.old }
{
    san_writer::write_san(buffer, texts, lengths, kinds)
}

// The writer of reference records.
pub fn beckethand_write_records(
    buffer: &mut [u8],
    texts: &[u8],
    lengths: &[usize],
    kinds: &[u8],
) -> Written
    ensures value { result ≡ written_by record_writer (request kinds.now lengths.now texts.now) (length buffer.old) }
    ensures buffer_after { buffer.new ≡ buffer_by record_writer (request kinds.now lengths.now texts.now) buffer.old }
{
    record_writer::write_records(buffer, texts, lengths, kinds)
}

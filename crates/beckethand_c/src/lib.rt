// What a C program links: each export is the function of `beckethand` that has its name, with the same clauses. A slice is a pointer and
// a length.
#![tactic(auto)]

ghost use Rattle.std.specs.Prelude.{◌≡◌, length};
ghost use Rattle.rules.specs.Records.{shown};
ghost use Rattle.rules.specs.Seen.{lengths_from_c};
ghost use Rattle.rules.specs.Verdict.{all_numbers};
ghost use Rattle.rules.specs.Viewer.{view_numbers};
ghost use Rattle.rules.specs.Writing.{request, san_writer, record_writer, written_by, buffer_by};
ghost use Rattle.reading.specs.Calls.{inputs, outcome_on, listing_on, table_on, opening_on, view_on};

use rules::VerdictNumbers;

// The version of these calls: major * 10000 + minor * 100 + patch. BECKETHAND_VERSION of include/beckethand.h is the same number.
#[unsafe(no_mangle)]
pub extern "C" fn beckethand_version() -> u32
    ensures { result ≡ 10100 }
{
    beckethand::beckethand_version()
}

// All numbers, from one outcome.
#[unsafe(no_mangle)]
pub extern "C" fn beckethand_verdict(
    san: &[u8],
    subject: &[u8],
    constraints: &[u8],
    lengths: &[u8],
    references: &[u8],
) -> VerdictNumbers
    ensures { result ≡ all_numbers (outcome_on (inputs san.now subject.now constraints.now (lengths_from_c lengths.now) references.now)) }
{
    beckethand::beckethand_verdict(san, subject, constraints, lengths, references)
}

// The verdict's answer.
#[unsafe(no_mangle)]
pub extern "C" fn beckethand_answer(
    san: &[u8],
    subject: &[u8],
    constraints: &[u8],
    lengths: &[u8],
    references: &[u8],
) -> u32
    ensures { result ≡ (all_numbers (outcome_on (inputs san.now subject.now constraints.now (lengths_from_c lengths.now) references.now))).answer }
{
    beckethand::beckethand_answer(san, subject, constraints, lengths, references)
}

// The index of the reference that matches.
#[unsafe(no_mangle)]
pub extern "C" fn beckethand_reference(
    san: &[u8],
    subject: &[u8],
    constraints: &[u8],
    lengths: &[u8],
    references: &[u8],
) -> u32
    ensures { result ≡ (all_numbers (outcome_on (inputs san.now subject.now constraints.now (lengths_from_c lengths.now) references.now))).reference }
{
    beckethand::beckethand_reference(san, subject, constraints, lengths, references)
}

// The index of the presented identifier that it matches, or of the first that breaks the constraints of an issuer.
#[unsafe(no_mangle)]
pub extern "C" fn beckethand_presented(
    san: &[u8],
    subject: &[u8],
    constraints: &[u8],
    lengths: &[u8],
    references: &[u8],
) -> u32
    ensures { result ≡ (all_numbers (outcome_on (inputs san.now subject.now constraints.now (lengths_from_c lengths.now) references.now))).presented }
{
    beckethand::beckethand_presented(san, subject, constraints, lengths, references)
}

// Where the identifier's DER element starts.
#[unsafe(no_mangle)]
pub extern "C" fn beckethand_start(
    san: &[u8],
    subject: &[u8],
    constraints: &[u8],
    lengths: &[u8],
    references: &[u8],
) -> u32
    ensures { result ≡ (all_numbers (outcome_on (inputs san.now subject.now constraints.now (lengths_from_c lengths.now) references.now))).start }
{
    beckethand::beckethand_start(san, subject, constraints, lengths, references)
}

// How long that element is.
#[unsafe(no_mangle)]
pub extern "C" fn beckethand_length(
    san: &[u8],
    subject: &[u8],
    constraints: &[u8],
    lengths: &[u8],
    references: &[u8],
) -> u32
    ensures { result ≡ (all_numbers (outcome_on (inputs san.now subject.now constraints.now (lengths_from_c lengths.now) references.now))).length }
{
    beckethand::beckethand_length(san, subject, constraints, lengths, references)
}

// The index of the issuer whose constraints are broken.
#[unsafe(no_mangle)]
pub extern "C" fn beckethand_issuer(
    san: &[u8],
    subject: &[u8],
    constraints: &[u8],
    lengths: &[u8],
    references: &[u8],
) -> u32
    ensures { result ≡ (all_numbers (outcome_on (inputs san.now subject.now constraints.now (lengths_from_c lengths.now) references.now))).issuer }
{
    beckethand::beckethand_issuer(san, subject, constraints, lengths, references)
}

// Where the witness's text starts.
#[unsafe(no_mangle)]
pub extern "C" fn beckethand_text_start(
    san: &[u8],
    subject: &[u8],
    constraints: &[u8],
    lengths: &[u8],
    references: &[u8],
) -> u32
    ensures { result ≡ (all_numbers (outcome_on (inputs san.now subject.now constraints.now (lengths_from_c lengths.now) references.now))).text_start }
{
    beckethand::beckethand_text_start(san, subject, constraints, lengths, references)
}

// How long it is.
#[unsafe(no_mangle)]
pub extern "C" fn beckethand_text_length(
    san: &[u8],
    subject: &[u8],
    constraints: &[u8],
    lengths: &[u8],
    references: &[u8],
) -> u32
    ensures { result ≡ (all_numbers (outcome_on (inputs san.now subject.now constraints.now (lengths_from_c lengths.now) references.now))).text_length }
{
    beckethand::beckethand_text_length(san, subject, constraints, lengths, references)
}

// The record reader's answer.
#[unsafe(no_mangle)]
pub extern "C" fn beckethand_record_answer(references: &[u8], index: usize) -> u32
    ensures { result ≡ (shown references.now index).answer }
{
    beckethand::beckethand_record_answer(references, index)
}

// The kind of the record at an index.
#[unsafe(no_mangle)]
pub extern "C" fn beckethand_record_kind(references: &[u8], index: usize) -> u32
    ensures { result ≡ (shown references.now index).kind }
{
    beckethand::beckethand_record_kind(references, index)
}

// The length of its service.
#[unsafe(no_mangle)]
pub extern "C" fn beckethand_record_service_length(references: &[u8], index: usize) -> u32
    ensures { result ≡ (shown references.now index).service }
{
    beckethand::beckethand_record_service_length(references, index)
}

// The length of its domain.
#[unsafe(no_mangle)]
pub extern "C" fn beckethand_record_domain_length(references: &[u8], index: usize) -> u32
    ensures { result ≡ (shown references.now index).domain }
{
    beckethand::beckethand_record_domain_length(references, index)
}

// The listing of one of the three certificate strings: `which` is 0 for the SAN, 1 for the subject, else the constraints.
#[unsafe(no_mangle)]
pub extern "C" fn beckethand_list(
    table: &mut [rules::Row],
    bytes: &[u8],
    which: usize,
) -> rules::Listed
    ensures { (result ≡ listing_on which bytes.now (length table.old))
        × (table.new ≡ table_on which bytes.now table.old) }
{
    beckethand::beckethand_list(table, bytes, which)
}

// How a viewer of such a string opens: 0, or why it is refused.
#[unsafe(no_mangle)]
pub extern "C" fn beckethand_opening(bytes: &[u8], which: usize) -> u32
    ensures { result ≡ opening_on which bytes.now }
{
    beckethand::beckethand_opening(bytes, which)
}

// What a viewer shows from a position, and its position after that.
#[unsafe(no_mangle)]
pub extern "C" fn beckethand_view(bytes: &[u8], which: usize, at: usize) -> rules::ViewNumbers
    ensures { result ≡ view_numbers (view_on which bytes.now at) }
{
    beckethand::beckethand_view(bytes, which, at)
}

// The writer of SAN values.
#[unsafe(no_mangle)]
pub extern "C" fn beckethand_write_san(
    buffer: &mut [u8],
    texts: &[u8],
    lengths: &[usize],
    kinds: &[u8],
) -> rules::Written
    ensures value { result ≡ written_by san_writer (request kinds.now lengths.now texts.now) (length buffer.old) }
    ensures buffer_after { buffer.new ≡ buffer_by san_writer (request kinds.now lengths.now texts.now) buffer.old }
{
    beckethand::beckethand_write_san(buffer, texts, lengths, kinds)
}

// The writer of reference records.
#[unsafe(no_mangle)]
pub extern "C" fn beckethand_write_records(
    buffer: &mut [u8],
    texts: &[u8],
    lengths: &[usize],
    kinds: &[u8],
) -> rules::Written
    ensures value { result ≡ written_by record_writer (request kinds.now lengths.now texts.now) (length buffer.old) }
    ensures buffer_after { buffer.new ≡ buffer_by record_writer (request kinds.now lengths.now texts.now) buffer.old }
{
    beckethand::beckethand_write_records(buffer, texts, lengths, kinds)
}

// Reference records: whether they are good, and the record reader. Document 01, "Reference records".
#![tactic(auto)]

ghost use Rattle.std.specs.Prelude.{◌<◌, ◌/◌, ◌*◌, ◌≡◌, ◌≤◌, true, length, get_or};
ghost use Rattle.rules.specs.Bytes.{part};
ghost use Rattle.rules.specs.Numbers.{record_size, service_size, domain_size, service_length_at, domain_length_at, kind_number};
ghost use Rattle.rules.specs.Records as records;
ghost use Rattle.rules.specs.Records.{reference, reference_of};
ghost use Rattle.records.specs.Small.{SmallShown};
ghost use Rattle.records.specs.References.{reference_at};
ghost use Rattle.records.specs.Read.{ReadsAt};

use octets::{Dotted, wide};
use rules::{
    ACCEPTED, DOMAIN_AT, DOMAIN_LENGTH_AT, DOMAIN_SIZE, Kind, RECORD_SIZE, RECORDS_LIMIT, Refusal,
    SERVICE_AT, SERVICE_LENGTH_AT, SERVICE_SIZE, Shown,
};

// Whether a text of n bytes fits its field, "filled with zeros".
#[tactic(auto, using(crate::proofs::Laws::filled_short, crate::proofs::Laws::filled_rest))]
fn filled(field: &[u8], n: usize) -> bool
    ensures { result ≡ records.filled field.now n }
{
    n <= field.len() && words::zero(field, n, field.len())
}

// "Kinds 1 and 4 have service length 0. Kind 2: a service .. Kind 3: a URI scheme"
#[tactic(auto, unfolding(rules::specs::Records::good_service))]
fn good_service(kind: Kind, s: &[u8]) -> bool
    ensures { result ≡ records.good_service (kind_number kind) s.now }
{
    match kind {
        Kind::Dns | Kind::Cn => s.is_empty(),
        Kind::Srv => names::service(s),
        Kind::Uri => names::scheme(s),
    }
}

// "The domain is as defined below", and "a reference record whose domain has one label is refused with 6": two labels have a dot.
#[tactic(auto, using(crate::proofs::References::is_number, crate::proofs::Laws::no_number, names::proofs::Labels::two_labels_lem), unfolding(rules::specs::Records::good_reference))]
pub fn good_reference(kind: u8, service: &[u8], domain: &[u8]) -> bool
    ensures { result ≡ records.good_reference (reference kind service.now domain.now) }
{
    match Kind::try_from(kind) {
        Ok(kind) => {
            good_service(kind, service) && names::domain(domain) && octets::has(domain, b'.')
        }
        Err(_) => false,
    }
}

// "Byte 2 service length .. Bytes 4 to 66 service"
#[tactic(auto, unfolding(rules::specs::Records::reference_of, rules::specs::Bytes::part))]
fn service_in(b: &[u8]) -> &[u8]
    requires b_size { length b.now ≡ record_size }
    requires fits { get_or b.now service_length_at 0 ≤ service_size }
    ensures { result.now ≡ (reference_of b.now).service }
{
    &b[SERVICE_AT..][..wide(b[SERVICE_LENGTH_AT])]
}

// "byte 3 domain length .. 67 to 319 domain"
#[tactic(auto, unfolding(rules::specs::Records::reference_of, rules::specs::Bytes::part))]
fn domain_in(b: &[u8]) -> &[u8]
    requires b_size { length b.now ≡ record_size }
    requires fits { get_or b.now domain_length_at 0 ≤ domain_size }
    ensures { result.now ≡ (reference_of b.now).domain }
{
    &b[DOMAIN_AT..][..wide(b[DOMAIN_LENGTH_AT])]
}

// Whether the 320 bytes of one record are good.
#[tactic(auto, using(crate::proofs::References::filled_fits), unfolding(rules::specs::Records::good_record, rules::specs::Bytes::part))]
fn good_record(b: &[u8]) -> bool
    requires { length b.now ≡ record_size }
    ensures { result ≡ records.good_record b.now }
{
    b[1] == 0
        && filled(
            &b[SERVICE_AT..SERVICE_AT + SERVICE_SIZE],
            wide(b[SERVICE_LENGTH_AT]),
        )
        && filled(
            &b[DOMAIN_AT..DOMAIN_AT + DOMAIN_SIZE],
            wide(b[DOMAIN_LENGTH_AT]),
        )
        && good_reference(b[0], service_in(b), domain_in(b))
}

// "Anything else, a total of 0 bytes, or one not divisible by 320 is answer 6."
pub fn good_records(references: &[u8]) -> bool
    ensures { result ≡ records.good_records references.now }
{
    !references.is_empty()
        && references.len() % RECORD_SIZE == 0
        && references.chunks_exact(RECORD_SIZE).all(good_record)
}

// The 320 bytes of the record at an index.
#[tactic(auto, using(crate::proofs::References::record_room, crate::proofs::References::cancel), unfolding(rules::specs::Bytes::part))]
fn nth_record(references: &[u8], i: usize) -> &[u8]
    requires { i < length references.now / record_size }
    ensures value { result.now ≡ part references.now (i * record_size) record_size }
    ensures size { length result.now ≡ record_size }
{
    let at = i * RECORD_SIZE;
    &references[at..at + RECORD_SIZE]
}

// A reference of good records, as the parts of its record.
#[derive(Clone, Copy)]
pub struct Reference<'a> {
    pub kind: Kind,
    pub service: &'a [u8],
    pub domain: Dotted<'a>,
    pub ghost good: { records.good_reference (reference (kind_number kind) service.now domain.text.now) ≡ true },
}

// The reference at an index of good records.
pub fn reference_at<'a>(references: &'a [u8], i: usize) -> Reference<'a>
    requires references_value { records.good_records references.now ≡ true }
    requires i_in_bounds { i < length references.now / record_size }
    ensures { reference (kind_number result.kind) result.service.now result.domain.text.now ≡ reference_at references.now i }
{
    let b = nth_record(references, i);
    match Kind::try_from(b[0]) {
        Ok(kind) => Reference {
            kind,
            service: service_in(b),
            domain: Dotted::new(domain_in(b)),
        },
        // Good records have no other kind.
        Err(_) => unreachable!(),
    }
}

// The record at an index, if the records are not too long and good; none past the last.
#[tactic(auto, unfolding(rules::specs::Records::shown))]
fn read_at(references: &[u8], index: usize) -> Result<Option<&[u8]>, Refusal>
    ensures { ReadsAt references.now index result }
{
    if RECORDS_LIMIT < references.len() {
        return Err(Refusal::InputTooLong);
    }
    if !good_records(references) {
        return Err(Refusal::RecordsUnreadable);
    }
    Ok(references.chunks_exact(RECORD_SIZE).nth(index))
}

// An answer with no record beside it.
fn no_record(answer: usize) -> Shown
    ensures { result ≡ records.no_record answer }
{
    Shown {
        answer,
        kind: 0,
        service: 0,
        domain: 0,
    }
}

// "The record reader takes an index too: 7, then 6, else 0; beside it that record's kind and two lengths, zeros on a refusal or
// past the last."
pub fn show(references: &[u8], index: usize) -> Shown
    ensures { (result ≡ records.shown references.now index) × SmallShown result }
{
    match read_at(references, index) {
        Ok(Some(b)) => Shown {
            answer: ACCEPTED,
            kind: wide(b[0]),
            service: wide(b[SERVICE_LENGTH_AT]),
            domain: wide(b[DOMAIN_LENGTH_AT]),
        },
        Ok(None) => no_record(ACCEPTED),
        Err(refusal) => no_record(usize::from(refusal)),
    }
}

// The kind of a reference, its service, and its domain, each by itself.
#[tactic(auto, unfolding(crate::specs::References::reference_at, rules::specs::Records::reference_of))]
pub fn kind_of(references: &[u8], i: usize) -> u8
    requires { i < length references.now / record_size }
    ensures { result ≡ (reference_at references.now i).kind }
{
    nth_record(references, i)[0]
}

pub fn service_of(references: &[u8], i: usize) -> &[u8]
    requires references_value { records.good_records references.now ≡ true }
    requires i_in_bounds { i < length references.now / record_size }
    ensures { result.now ≡ (reference_at references.now i).service }
{
    service_in(nth_record(references, i))
}

pub fn domain_of(references: &[u8], i: usize) -> &[u8]
    requires references_value { records.good_records references.now ≡ true }
    requires i_in_bounds { i < length references.now / record_size }
    ensures { result.now ≡ (reference_at references.now i).domain }
{
    domain_in(nth_record(references, i))
}

// The writer of reference records: what it knows of one record. Request 4/13.
#![tactic(auto)]

ghost use Rattle.std.specs.Prelude.{◌≡◌, ◌≤◌, length, [], ◌∷◌};
ghost use Rattle.rules.specs.Bytes.{cut};
ghost use Rattle.rules.specs.Numbers.{service_size, domain_size, records_limit};
ghost use Rattle.rules.specs.Records.{Reference, reference};
ghost use Rattle.rules.specs.Writing.{request, record_for, record_writer, written_by, buffer_by};
ghost use Rattle.record_writer.specs.Names.{reference_of_texts, no_head};
ghost use Rattle.record_writer.specs.Parts.{record_parts};

use output::Out;
use records::good_reference;
use rules::{
    DOMAIN_AT, DOMAIN_LENGTH_AT, RECORD_SIZE, RECORDS_LIMIT, SERVICE_AT, SERVICE_LENGTH_AT, Written,
};
use writing::{Name, Writer, told, write_list};

// "the latter starts from a blank record of 320 zero bytes"
fn record_bytes(kind: u8, service: &[u8], domain: &[u8]) -> [u8; 320]
    requires { (length service.now ≤ service_size) × (length domain.now ≤ domain_size) }
    ensures { result ≡ record_for (reference kind service.now domain.now) }
{
    let mut bytes = [0u8; RECORD_SIZE];
    bytes[0] = kind;
    bytes[SERVICE_LENGTH_AT] = service.len() as u8;
    bytes[DOMAIN_LENGTH_AT] = domain.len() as u8;
    let mut out = Out {
        buffer: &mut bytes,
        at: SERVICE_AT,
    };
    out.put_text(service);
    out.at = DOMAIN_AT;
    out.put_text(domain);
    bytes
}

// The two texts of a record, "(a record's service, then its domain)".
#[tactic(auto, using(crate::proofs::Two::first_within, crate::proofs::Two::cut_two))]
fn service_and_domain(name: Name<'_>) -> (&[u8], &[u8])
    requires { length name.lengths.now ≡ 2 }
    ensures { cut name.entry.lengths.now name.entry.texts.now ≡ result.0.now ∷ result.1.now ∷ [] }
{
    name.texts.split_at(name.lengths[0])
}

// The records as a writer's names.
struct Records;

#[tactic(auto, using(crate::proofs::Two::laws))]
impl Writer for Records {
    ghost names = { Reference };

    ghost described = { record_writer };

    ghost make = { reference_of_texts };

    ghost bytes = { record_for };

    ghost head = { no_head };

    ghost PER = { 2 };

    ghost LIMIT = { records_limit };

    const PER: usize = 2;

    const LIMIT: usize = RECORDS_LIMIT;

    // A good reference fits its fields, and its record's reader takes it.
    fn good(name: Name<'_>) -> bool {
        let (service, domain) = service_and_domain(name);
        good_reference(name.kind, service, domain)
    }

    fn size(_name: Name<'_>) -> usize {
        RECORD_SIZE
    }

    fn whole_size(content: usize) -> usize {
        content
    }

    fn put_head(_out: &mut Out<'_>, _content: usize) {}

    fn put(out: &mut Out<'_>, name: Name<'_>) {
        let (service, domain) = service_and_domain(name);
        out.put_text(&record_bytes(name.kind, service, domain));
    }

    ghost parts = { record_parts };
}

// "and one that makes reference records from kind, service and domain"
pub fn write_records(buffer: &mut [u8], texts: &[u8], lengths: &[usize], kinds: &[u8]) -> Written
    ensures value { result ≡ written_by record_writer (request kinds.now lengths.now texts.now) (length buffer.old) }
    ensures buffer_after { buffer.new ≡ buffer_by record_writer (request kinds.now lengths.now texts.now) buffer.old }
{
    told(write_list::<Records>(buffer, texts, lengths, kinds))
}

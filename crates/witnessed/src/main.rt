// Asks for the witness of fixed certificates: for each a line with the verdict's six numbers, where the witness's text starts in its
// string and how long it is, and the text itself, as it was handed back. The references are DNS, SRV, URI and CN, all for `a.b.c`,
// with the service or scheme `m`. The stored output is held, line by line, to the second program's (tests/second/tests/stored.rs).
#![tactic(auto)]

use std::io;
use verdict::Inputs;

// A subject with the CN `a.b.c`.
const SUBJECT: &[u8] = b"\x30\x10\x31\x0E\x30\x0C\x06\x03\x55\x04\x03\x0C\x05a.b.c";

// An SRVName `_m.a.b.c`.
const SRV_NAME: &[u8] =
    b"\x30\x18\xA0\x16\x06\x08\x2B\x06\x01\x05\x05\x07\x08\x07\xA0\x0A\x16\x08_m.a.b.c";

// No SAN, a subject whose CN matches, and no constraints; the references are put in later.
const PLAIN: Inputs = Inputs {
    san: b"",
    subject: SUBJECT,
    constraints: b"",
    lengths: &[],
    references: b"",
};

const CASES: [(&str, Inputs); 12] = [
    // Matches in the SAN.
    (
        "dNSName",
        Inputs {
            san: b"\x30\x07\x82\x05a.b.c",
            ..PLAIN
        },
    ),
    (
        "wildcard",
        Inputs {
            san: b"\x30\x07\x82\x05*.b.c",
            ..PLAIN
        },
    ),
    (
        "second name",
        Inputs {
            san: b"\x30\x0E\x82\x05x.b.c\x82\x05A.B.C",
            ..PLAIN
        },
    ),
    (
        "SRVName",
        Inputs {
            san: SRV_NAME,
            ..PLAIN
        },
    ),
    (
        "URI",
        Inputs {
            san: b"\x30\x0B\x86\x09m://a.b.c",
            ..PLAIN
        },
    ),
    // Matches in the subject.
    ("CN", PLAIN),
    (
        "CN of the second set",
        Inputs {
            san: b"\x30\x03\x81\x01@",
            subject: b"\x30\x1A\x31\x08\x30\x06\x06\x01\x2A\x0C\x01\x62\x31\x0E\x30\x0C\x06\x03\x55\x04\x03\x13\x05*.b.c",
            ..PLAIN
        },
    ),
    // No match: another name, an unreadable SAN, and an SRVName outside the only permitted subtree.
    (
        "mismatch",
        Inputs {
            san: b"\x30\x07\x82\x05x.b.c",
            ..PLAIN
        },
    ),
    (
        "unreadable",
        Inputs {
            san: b"\x30\x00",
            ..PLAIN
        },
    ),
    (
        "constraints broken",
        Inputs {
            san: SRV_NAME,
            constraints: b"\x30\x16\xA0\x14\x30\x12\xA0\x10\x06\x08\x2B\x06\x01\x05\x05\x07\x08\x07\xA0\x04\x16\x02_n",
            lengths: &[24],
            ..PLAIN
        },
    ),
    // The dNSName `a.b.c` where the first issuer permits `c` and the second excludes `d`; and where the first permits `c`, the second has
    // no constraints and the third permits `d`.
    (
        "two issuers",
        Inputs {
            san: b"\x30\x07\x82\x05a.b.c",
            constraints: b"\x30\x07\xA0\x05\x30\x03\x82\x01c\x30\x07\xA1\x05\x30\x03\x82\x01d",
            lengths: &[9, 9],
            ..PLAIN
        },
    ),
    (
        "third issuer's constraints broken",
        Inputs {
            san: b"\x30\x07\x82\x05a.b.c",
            constraints: b"\x30\x07\xA0\x05\x30\x03\x82\x01c\x30\x07\xA0\x05\x30\x03\x82\x01d",
            lengths: &[9, 0, 9],
            ..PLAIN
        },
    ),
];

// A record for `a.b.c`, with a service of one letter or with none.
fn record(kind: u8, service: Option<u8>) -> [u8; rules::RECORD_SIZE] {
    let mut record = [0u8; rules::RECORD_SIZE];
    record[0] = kind;
    if let Some(letter) = service {
        record[rules::SERVICE_LENGTH_AT] = 1;
        record[rules::SERVICE_AT] = letter;
    }
    record[rules::DOMAIN_LENGTH_AT] = 5;
    record[rules::DOMAIN_AT..rules::DOMAIN_AT + 5].copy_from_slice(b"a.b.c");
    record
}

fn show(rt: &impl Print, title: &str, inputs: Inputs) -> io::Result<()> {
    let v = verdict::verdict(inputs);
    print!(rt;
        "{title}: {} {} {} {} {} {}",
        v.answer, v.reference, v.presented, v.start, v.length, v.issuer
    )?;
    let place = verdict::text_place(inputs);
    print!(rt; "; {} {}; \"", place.start, place.length)?;
    rt.write_all(verdict::witness(inputs))?;
    rt.println("\"")
}

fn main(rt: HostRuntime) -> io::Result<()> {
    let records = [
        record(rules::DNS, None),
        record(rules::SRV, Some(b'm')),
        record(rules::URI, Some(b'm')),
        record(rules::CN, None),
    ];
    let references = records.as_flattened();
    for (title, certificate) in CASES {
        show(
            &rt,
            title,
            Inputs {
                references,
                ..certificate
            },
        )?;
    }
    Ok(())
}

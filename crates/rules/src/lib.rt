// The types that all crates share: the numbers that a caller sees, and where a witness lies.
// What is right is said in specs/, in document 01's words. The constants of this file are the numbers of specs/Numbers.antt, for code: a
// proof of equality with a definition fails where the two differ. Its only functions turn an outcome, a refusal and a
// step into their numbers, and a number into a kind.

#![tactic(auto)]

ghost use Rattle.std.specs.Prelude.{◌≡◌};
ghost use Rattle.rules.specs.Numbers.{answer_of, kind_of};
ghost use Rattle.rules.specs.Verdict.{numbers_of};
ghost use Rattle.rules.specs.Viewer.{view_numbers};

// The answers.
pub const MATCH: usize = 0;

pub const MISMATCH: usize = 1;

pub const CONSTRAINTS_BROKEN: usize = 2;

pub const SAN_UNREADABLE: usize = 3;

pub const SUBJECT_UNREADABLE: usize = 4;

pub const CONSTRAINTS_UNREADABLE: usize = 5;

pub const RECORDS_UNREADABLE: usize = 6;

pub const INPUT_TOO_LONG: usize = 7;

pub const ACCEPTED: usize = 0;

pub const TABLE_TOO_SHORT: usize = 8;

// The refusals of the writers.
pub const EMPTY_LIST: usize = 21;

pub const NOT_A_NAME: usize = 22;

pub const RESULT_TOO_LONG: usize = 23;

pub const BUFFER_TOO_SHORT: usize = 24;

// The longest inputs, in bytes.
pub const SAN_LIMIT: usize = 16384;

pub const SUBJECT_LIMIT: usize = 4096;

pub const CONSTRAINTS_LIMIT: usize = 16384;

pub const RECORDS_LIMIT: usize = 5120;

// The most issuers whose constraints are handed over.
pub const MOST_ISSUERS: usize = 8;

// The size of a reference record; where its lengths, its service and its domain stand, and how long the two fields are.
pub const RECORD_SIZE: usize = 320;

pub const SERVICE_LENGTH_AT: usize = 2;

pub const DOMAIN_LENGTH_AT: usize = 3;

pub const SERVICE_AT: usize = 4;

pub const SERVICE_SIZE: usize = 63;

pub const DOMAIN_AT: usize = 67;

pub const DOMAIN_SIZE: usize = 253;

// A kind of references. Its number in a record is `kind_number` of specs/Numbers.antt.
#[derive(Clone, Copy, Debug, PartialEq, Eq)]
pub enum Kind {
    Dns,
    Srv,
    Uri,
    Cn,
}

// A number that is no kind's.
#[derive(Clone, Copy, Debug, PartialEq, Eq)]
pub struct UnknownKind(pub u8);

impl TryFrom<u8> for Kind {
    type Error = UnknownKind;

    ghost try_from_gives = { λ number kind. kind ≡ kind_of number };

    fn try_from(number: u8) -> Result<Kind, UnknownKind> {
        match number {
            DNS => Ok(Kind::Dns),
            SRV => Ok(Kind::Srv),
            URI => Ok(Kind::Uri),
            CN => Ok(Kind::Cn),
            _ => Err(UnknownKind(number)),
        }
    }
}

// The kinds of references, as a record numbers them.
pub const DNS: u8 = 1;

pub const SRV: u8 = 2;

pub const URI: u8 = 3;

pub const CN: u8 = 4;

// "the eight bytes 2B 06 01 05 05 07 08 07": the OID of an SRVName.
pub const SRV_OID: [u8; 8] = [0x2B, 0x06, 0x01, 0x05, 0x05, 0x07, 0x08, 0x07];

// A row of a listing: (kind, start, length, group).
#[repr(C)]
#[derive(Clone, Copy)]
pub struct Row {
    pub kind: usize,
    pub start: usize,
    pub length: usize,
    pub group: usize,
}

// What a listing answers: the answer, and the count or the count needed.
#[repr(C)]
#[derive(Clone, Copy)]
pub struct Listed {
    pub answer: usize,
    pub count: usize,
}

// A step of a viewer: the row of a name, or none at the end; and the position after it.
#[derive(Clone, Copy)]
pub struct View {
    pub row: Option<Row>,
    pub at: usize,
}

// A step's six numbers. The numbers of each case are `view_numbers` of specs/Viewer.antt.
#[repr(C)]
#[derive(Clone, Copy)]
pub struct ViewNumbers {
    pub shown: usize,
    pub kind: usize,
    pub start: usize,
    pub length: usize,
    pub group: usize,
    pub at: usize,
}

impl From<View> for ViewNumbers {
    ghost from_gives = { λ view numbers. numbers ≡ view_numbers view };

    #[tactic(auto, unfolding(crate::specs::Viewer::view_numbers, crate::specs::Viewer::numbers_at))]
    fn from(view: View) -> ViewNumbers {
        let at = view.at;
        match view.row {
            Some(row) => ViewNumbers {
                shown: 1,
                kind: row.kind,
                start: row.start,
                length: row.length,
                group: row.group,
                at,
            },
            None => ViewNumbers {
                shown: 0,
                kind: 0,
                start: 0,
                length: 0,
                group: 0,
                at,
            },
        }
    }
}

// What a writer answers: the answer, and the length of what is written.
#[repr(C)]
#[derive(Clone, Copy)]
pub struct Written {
    pub answer: usize,
    pub length: usize,
}

// A verdict's six numbers.
#[derive(Clone, Copy)]
pub struct Verdict {
    pub answer: usize,
    pub reference: usize,
    pub presented: usize,
    pub start: usize,
    pub length: usize,
    pub issuer: usize,
}

// All numbers that C is told of a verdict: its own six, and where the witness's text lies. They are `all_numbers` of specs/Verdict.antt.
#[repr(C)]
#[derive(Clone, Copy)]
pub struct VerdictNumbers {
    pub answer: u32,
    pub reference: u32,
    pub presented: u32,
    pub start: u32,
    pub length: u32,
    pub issuer: u32,
    pub text_start: u32,
    pub text_length: u32,
}

// What the record reader shows: the answer, the record's kind, and the lengths of its service and its domain.
#[derive(Clone, Copy)]
pub struct Shown {
    pub answer: usize,
    pub kind: usize,
    pub service: usize,
    pub domain: usize,
}

// A part of a certificate string.
#[derive(Clone, Copy)]
pub struct Place {
    pub start: usize,
    pub length: usize,
}

// The first pair that matches: the reference's index and the presented identifier's, the places of the identifier's DER
// element and of its text, and whether they lie in the subject, as a CN does, or in the SAN.
#[derive(Clone, Copy)]
pub struct Witness {
    pub reference: usize,
    pub presented: usize,
    pub element: Place,
    pub text: Place,
    pub subject: bool,
}

// A string of constraints that is broken: its issuer's index, and the index of the first SAN entry that breaks it.
#[derive(Clone, Copy)]
pub struct Breach {
    pub issuer: usize,
    pub presented: usize,
}

// Why a verdict is refused, and a listing or a viewer of one string. The number of each case is `answer_of` of specs/Numbers.antt.
#[derive(Clone, Copy, Debug, PartialEq, Eq)]
pub enum Refusal {
    // Answer 7.
    InputTooLong,
    // Answer 6.
    RecordsUnreadable,
    // Answer 3.
    SanUnreadable,
    // Answer 4.
    SubjectUnreadable,
    // Answer 5.
    ConstraintsUnreadable,
}

impl From<Refusal> for usize {
    ghost from_gives = { λ refusal answer. answer ≡ answer_of refusal };

    fn from(refusal: Refusal) -> usize {
        match refusal {
            Refusal::InputTooLong => INPUT_TOO_LONG,
            Refusal::RecordsUnreadable => RECORDS_UNREADABLE,
            Refusal::SanUnreadable => SAN_UNREADABLE,
            Refusal::SubjectUnreadable => SUBJECT_UNREADABLE,
            Refusal::ConstraintsUnreadable => CONSTRAINTS_UNREADABLE,
        }
    }
}

// How a verdict ends. The numbers of each case are `numbers_of` of specs/Verdict.antt.
#[derive(Clone, Copy)]
pub enum Outcome {
    // Answers 7, 6, 3, 4 and 5: an input is too long or unreadable.
    Refused(usize),
    // Answer 2: the first breach of the constraints.
    Broken(Breach),
    // Answer 0.
    Matched(Witness),
    // Answer 1.
    Mismatched,
}

// The numbers of a verdict that has no witness and no breach.
const NO_NUMBERS: Verdict = Verdict {
    answer: MISMATCH,
    reference: 0,
    presented: 0,
    start: 0,
    length: 0,
    issuer: 0,
};

impl From<Outcome> for Verdict {
    ghost from_gives = { λ outcome verdict. verdict ≡ numbers_of outcome };

    #[tactic(auto, unfolding(crate::specs::Verdict::numbers_of))]
    fn from(outcome: Outcome) -> Verdict {
        match outcome {
            Outcome::Refused(answer) => Verdict {
                answer,
                ..NO_NUMBERS
            },
            Outcome::Broken(breach) => Verdict {
                answer: CONSTRAINTS_BROKEN,
                presented: breach.presented,
                issuer: breach.issuer,
                ..NO_NUMBERS
            },
            Outcome::Matched(witness) => Verdict {
                answer: MATCH,
                reference: witness.reference,
                presented: witness.presented,
                start: witness.element.start,
                length: witness.element.length,
                issuer: 0,
            },
            Outcome::Mismatched => NO_NUMBERS,
        }
    }
}

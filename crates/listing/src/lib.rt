// The listing of a certificate string into a table that the caller lends. `planned` judges the string and the table; `fill` alone
// touches the table. `which` is 0 for the SAN, 1 for the subject, any other number for the constraints.
#![tactic(auto, using(crate::proofs::Laws::laws))]

ghost use Rattle.std.specs.Prelude.{◌≤◌, ◌≡◌, length};
ghost use Rattle.reading.specs.Calls.{listing_on, table_on};
ghost use Rattle.listing.specs.Plans.{limit_of, unreadable_of, count_of, opened_of, plan_of, table_with, told};
ghost use Rattle.steps.specs.Rows.{rows_left};
ghost use Rattle.steps.specs.Steps.{source_of};

use entries::Unreadable;
use rules::{Listed, Refusal, Row};
use steps::{Rows, Source};
use strings::{constraints_count, san_count, subject_count};

// A readable string: how many names it has, and the walk over their rows.
#[derive(Clone, Copy)]
pub struct Names<'a> {
    pub count: usize,
    pub rows: Rows<'a>,
}

// Why nothing is listed.
#[derive(Clone, Copy, Debug, PartialEq, Eq)]
pub enum ListRefusal {
    // Answers 7, 3, 4 and 5: the string is too long or unreadable.
    Refused(Refusal),
    // Answer 8, and how many rows are needed.
    TableTooShort(usize),
}

impl From<Refusal> for ListRefusal {
    ghost use Rattle.listing.specs.declared.ListRefusal.TheVariants.{Refused};

    ghost from_gives = { λ why refusal. refusal ≡ Refused why };

    fn from(why: Refusal) -> ListRefusal {
        ListRefusal::Refused(why)
    }
}

// What the caller is told of a refusal: "7, then 3, 4 or 5 (each with count 0), then 8 with the count needed".
impl From<ListRefusal> for Listed {
    ghost from_gives = { λ refusal listed. listed ≡ told refusal };

    fn from(refusal: ListRefusal) -> Listed {
        match refusal {
            ListRefusal::Refused(why) => Listed {
                answer: why.into(),
                count: 0,
            },
            ListRefusal::TableTooShort(needed) => Listed {
                answer: rules::TABLE_TOO_SHORT,
                count: needed,
            },
        }
    }
}

// "Longest inputs, in bytes: SAN 16,384; subject 4,096; constraints 16,384"
fn limit(source: Source) -> usize
    ensures { result ≡ limit_of source }
{
    match source {
        Source::San => rules::SAN_LIMIT,
        Source::Subject => rules::SUBJECT_LIMIT,
        Source::Constraints => rules::CONSTRAINTS_LIMIT,
    }
}

// "3, 4 or 5"
fn unreadable(source: Source) -> Refusal
    ensures { result ≡ unreadable_of source }
{
    match source {
        Source::San => Refusal::SanUnreadable,
        Source::Subject => Refusal::SubjectUnreadable,
        Source::Constraints => Refusal::ConstraintsUnreadable,
    }
}

// How many names a string has. "An absent string lists 0 rows."
fn count(bytes: &[u8], source: Source) -> Result<usize, Unreadable>
    ensures { result ≡ count_of source bytes.now }
{
    match source {
        Source::Subject => subject_count(bytes),
        _ if bytes.is_empty() => Ok(0),
        Source::San => san_count(bytes),
        Source::Constraints => constraints_count(bytes),
    }
}

// A string by itself, for a table with room: "7, then 3, 4 or 5", else its names.
pub fn opened<'a>(bytes: &'a [u8], which: usize) -> Result<Names<'a>, Refusal>
    ensures { result ≡ opened_of (source_of which) bytes.entry }
{
    let source = Source::from(which);
    if bytes.len() > limit(source) {
        return Err(Refusal::InputTooLong);
    }
    let Ok(count) = count(bytes, source) else {
        return Err(unreadable(source));
    };
    Ok(Names {
        count,
        rows: source.rows(bytes),
    })
}

// The same for a table of `lent` rows: "then 8 with the count needed, given exactly when that exceeds the rows lent."
pub fn planned<'a>(bytes: &'a [u8], lent: usize, which: usize) -> Result<Names<'a>, ListRefusal>
    ensures { result ≡ plan_of (source_of which) bytes.entry lent }
{
    let names = opened(bytes, which)?;
    if names.count > lent {
        return Err(ListRefusal::TableTooShort(names.count));
    }
    Ok(names)
}

// The first rows of a table are those of a walk. "Rows past the count .. stay."
fn fill(table: &mut [Row], rows: Rows)
    requires { length (rows_left rows) ≤ length table.now }
    ensures { table.new ≡ table_with (rows_left rows.entry) table.old }
{
    for (i, row) in rows.enumerate() {
        table[i] = row;
    }
}

// "Rows (kind, start, length, group) go into a table lent as a slice of such records, one for each SAN entry, attribute or
// subtree in byte order." "Rows past the count, and all rows after a refusal, stay."
pub fn list(table: &mut [Row], bytes: &[u8], which: usize) -> Listed
    ensures { (result ≡ listing_on which bytes.now (length table.old))
        × (table.new ≡ table_on which bytes.now table.old) }
{
    match planned(bytes, table.len(), which) {
        Ok(names) => {
            fill(table, names.rows);
            Listed {
                answer: rules::ACCEPTED,
                count: names.count,
            }
        }
        Err(refusal) => refusal.into(),
    }
}

// The program of document 01: "reads san.der, subject.der, nc.der and refs.rec (a missing file is empty) and writes the verdict's
// six numbers, then the SAN's rows if it is within its limit, readable and has at most 512, or `rows` and the count if more.
// Decimals, single spaces, a line feed after each line." It fails closed: where a file is there and cannot be read, it writes no answer.
#![tactic(auto)]

ghost use Rattle.std.specs.Prelude.{◌≡◌, ◌≤◌, length, IfSome};
ghost use Rattle.std.specs.Io.{ReadsAtMost};
ghost use Rattle.std.proofs.Math.Option.{some};
ghost use Rattle.reading.specs.Calls.{inputs, verdict_on};
ghost use Rattle.namecheck.specs.Code.{code};
ghost use Rattle.namecheck.specs.Status.{one_length, status_of};

use listing::ListRefusal;
use std::env::FillError;
use std::io::{ErrorKind, Read, Write};
use std::rt::{Env, Files};
use std::{fs, io};
use verdict::Inputs;

// The number of the SAN among the strings that are listed.
const SAN: usize = 0;

// "has at most 512"
const MOST_ROWS: usize = 512;

// How the program ends: with a match, with another answer, or with no answer at all.
#[derive(Clone, Copy, Debug, PartialEq, Eq)]
enum Status {
    Matched,
    Otherwise,
    Failed,
}

#[tactic(auto, unfolding(crate::specs::Code::code))]
impl From<Status> for u32 {
    ghost from_gives = { λ status number. number ≡ code status };

    fn from(status: Status) -> u32 {
        match status {
            Status::Matched => 0,
            Status::Otherwise => 1,
            Status::Failed => 2,
        }
    }
}

#[tactic(auto, unfolding(crate::specs::Code::code, crate::specs::Status::status_of))]
impl From<rules::Verdict> for Status {
    ghost from_gives = { λ verdict status. code status ≡ status_of verdict };

    fn from(verdict: rules::Verdict) -> Status {
        if verdict.answer == rules::MATCH {
            Status::Matched
        } else {
            Status::Otherwise
        }
    }
}

// What the system says of an error, without the number that `Display` puts behind it in parentheses.
fn reason(error: io::Error, room: &mut [u8; 256]) -> &str {
    let mut left = &mut room[..];
    let _ = write!(left, "{error}");
    let end = octets::find(room, b'(');
    let text = str::from_utf8(&room[..end]).unwrap_or("");
    text.trim_end_matches('\0').trim_end()
}

// Reads until the buffer is full or the file ends. A read that fails part of the way is a failure: what came before it is not the
// file.
fn fill(file: &mut impl Read, buffer: &mut [u8]) -> io::Result<usize>
    ensures { ReadsAtMost result buffer.new }
{
    let mut done = 0;
    while done < buffer.len() {
        match file.read(&mut buffer[done..])? {
            0 => break,
            count => done += count,
        }
    }
    Ok(done)
}

// The first bytes of a file, as many as the buffer holds: "a missing file is empty", and one that is there and cannot be read is a
// failure. A buffer that holds one byte more than an input may have is enough: a longer file gives that many, and so answer 7.
fn read(rt: &impl Files, path: &str, buffer: &mut [u8]) -> io::Result<usize>
    ensures { ReadsAtMost result buffer.new }
{
    match fs::open(rt, path) {
        Ok(mut file) => fill(&mut file, buffer),
        Err(error) if error.kind() == ErrorKind::NotFound => Ok(0),
        Err(error) => Err(error),
    }
}

// What a file holds. Where it cannot be read, standard error says which file that is, and why.
fn load<'a, R: Files + Eprint>(rt: &R, path: &str, buffer: &'a mut [u8]) -> Option<&'a [u8]>
    ensures { IfSome result (λ bytes. length bytes.now ≤ length buffer.old) }
{
    match read(rt, path, buffer) {
        Ok(count) => Some(&buffer[..count]),
        Err(error) => {
            let mut room = [0u8; 256];
            let text = reason(error, &mut room);
            let _ = eprintln!(rt; "{path}: {text}");
            None
        }
    }
}

// A write that fails changes nothing: the exit status is the verdict's all the same.
fn show_verdict(rt: &impl Print, v: rules::Verdict) {
    let _ = println!(rt;
        "{} {} {} {} {} {}",
        v.answer, v.reference, v.presented, v.start, v.length, v.issuer
    );
}

fn show_row(rt: &impl Print, r: rules::Row) {
    let _ = println!(rt; "{} {} {} {}", r.kind, r.start, r.length, r.group);
}

// The rows of a SAN, or how many there are where that is too many. Nothing for one that is too long or unreadable.
fn show_rows(rt: &impl Print, san: &[u8]) {
    match listing::planned(san, MOST_ROWS, SAN) {
        Ok(names) => {
            for row in names.rows {
                show_row(rt, row);
            }
        }
        Err(ListRefusal::TableTooShort(count)) => {
            let _ = println!(rt; "rows {count}");
        }
        Err(ListRefusal::Refused(_)) => {}
    }
}

// Writes what is judged; the exit status is that of the verdict on these four strings. The constraints are handed over as one string, or as
// none where they are empty.
#[tactic(auto, using(crate::proofs::Laws::laws))]
pub fn judge(
    rt: &impl Print,
    san: &[u8],
    subject: &[u8],
    constraints: &[u8],
    references: &[u8],
) -> u32
    ensures { result ≡ status_of (verdict_on (inputs san.now subject.now constraints.now (some (one_length constraints.now)) references.now)) }
{
    let asked = Inputs {
        san,
        subject,
        constraints,
        lengths: &[],
        references,
    };
    let verdict = match constraints.len() {
        0 => verdict::verdict(asked),
        n => verdict::verdict(Inputs {
            lengths: &[n],
            ..asked
        }),
    };
    show_verdict(rt, verdict);
    show_rows(rt, san);
    Status::from(verdict).into()
}

// Reads the four files and, once each is read, judges them; the exit status, or none where a file cannot be read.
fn run<R: Files + Print + Eprint>(rt: &R) -> Option<u32> {
    let mut san = [0u8; rules::SAN_LIMIT + 1];
    let mut subject = [0u8; rules::SUBJECT_LIMIT + 1];
    let mut constraints = [0u8; rules::CONSTRAINTS_LIMIT + 1];
    let mut references = [0u8; rules::RECORDS_LIMIT + 1];
    let san = load(rt, "san.der", &mut san)?;
    let subject = load(rt, "subject.der", &mut subject)?;
    let constraints = load(rt, "nc.der", &mut constraints)?;
    let references = load(rt, "refs.rec", &mut references)?;
    Some(judge(rt, san, subject, constraints, references))
}

// Whether the program was called with an argument, be it empty.
fn has_arguments(rt: &impl Env) -> bool {
    !matches!(rt.arg(1, &mut [0u8; 1]), Err(FillError::NotPresent))
}

// The whole program, and its exit status. It takes no arguments.
pub fn namecheck_run<R: Env + Files + Print + Eprint>(rt: &R) -> u32 {
    if has_arguments(rt) {
        let _ = rt.eprintln(
            "usage: namecheck   (no arguments; san.der, subject.der, nc.der and refs.rec of the current folder)",
        );
        return Status::Failed.into();
    }
    run(rt).unwrap_or(Status::Failed.into())
}

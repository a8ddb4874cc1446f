// Runs vectors through the rules in code, and writes what each gives: first those of standard input, a line each, then
// reference records with each byte changed in turn.
//
// A line is a letter, a space, and one to three texts behind single spaces:
//   d domain     s service     h scheme     n DNS-ID     N reference, text: they match
//   r SRV-ID     R service, domain, text: they match     u URI-ID     U scheme, domain, text: they match
//   x restriction     X subtree, SRV-ID: the name lies in it     T text, text: they are the same without case
//   y dNSName restriction     Y subtree, DNS-ID: the name lies in it     Z subtree, DNS-ID: the name breaks it where it is excluded
// The line is written back behind 1 where the rule holds and 0 where it does not.
//
// The stored output is held, line by line, to what the second program says of the same vectors and records
// (tests/second/tests/stored.rs).
#![tactic(auto)]

ghost use Rattle.std.specs.Io.{ReadsAtMost};

use octets::Dotted;
use rules::{CN, DNS, SRV, URI};
use std::io;
use std::io::Read;

// What stands before the first space, and what stands past it; all and nothing where there is none.
fn split_word(s: &[u8]) -> (&[u8], &[u8]) {
    match s.iter().position(|b| *b == b' ') {
        Some(i) => (&s[..i], &s[i + 1..]),
        None => (s, &[]),
    }
}

// Whether an SRV-ID lies in the subtree; a text that is none does not.
fn srv_within(subtree: &[u8], name: &[u8]) -> bool {
    srv::srv_id(name) && srv::in_subtree(subtree, Dotted::new(name))
}

// Whether a DNS-ID breaks the subtree where it is excluded; a text that is none does not.
fn dns_breaks(subtree: &[u8], name: &[u8]) -> bool {
    dns::dns_id(name) && dns::dns_reaches(subtree, name)
}

fn holds(rule: u8, s: &[u8]) -> bool {
    let (first, rest) = split_word(s);
    let (second, third) = split_word(rest);
    match rule {
        b'd' => names::domain(s),
        b's' => names::service(s),
        b'h' => names::scheme(s),
        b'n' => dns::dns_id(s),
        b'N' => dns::dns_matches(first, rest),
        b'r' => srv::srv_id(s),
        b'R' => srv::srv_matches(first, second, third),
        b'u' => uri::uri_id(s),
        b'U' => uri::uri_matches(first, second, third),
        b'x' => srv::restriction(s),
        b'X' => srv_within(first, rest),
        b'y' => dns::dns_restriction(s),
        b'Y' => dns::dns_within(first, rest),
        b'Z' => dns_breaks(first, rest),
        b'T' => octets::same_text(first, rest),
        _ => false,
    }
}

fn show_line(rt: &impl Print, line: &[u8]) -> io::Result<()> {
    let [rule, _, texts @ ..] = line else {
        return Ok(());
    };
    let mark = if holds(*rule, texts) { b"1 " } else { b"0 " };
    rt.write_all(mark)?;
    rt.write_all(line)?;
    rt.write_all(b"\n")
}

fn show_lines(rt: &impl Print, input: &[u8]) -> io::Result<()> {
    for line in input.split(|b| *b == b'\n') {
        show_line(rt, line)?;
    }
    Ok(())
}

// A good record of the domain `a.b`, and of a service of one byte where there is one, byte by byte as document 01 lays it out.
fn record(kind: u8, service: Option<u8>) -> [u8; 320] {
    let mut b = [0u8; 320];
    b[0] = kind;
    if let Some(byte) = service {
        b[2] = 1;
        b[4] = byte;
    }
    b[3] = 3;
    b[67..70].copy_from_slice(b"a.b");
    b
}

fn show_answer(rt: &impl Print, references: &[u8]) -> io::Result<()> {
    print!(rt; "{}", records::show(references, 0).answer)
}

// The answers of a record with each of its bytes changed in turn, to one more or from 255 to 0, 64 to a line.
fn show_changes(rt: &impl Print, good: [u8; 320]) -> io::Result<()> {
    for i in 0..320 {
        let mut b = good;
        b[i] = b[i].wrapping_add(1);
        show_answer(rt, &b)?;
        if i % 64 == 63 {
            rt.write_all(b"\n")?;
        }
    }
    Ok(())
}

// The answers of 0, 1, 16 and 17 records, and of one byte less and one byte more than 16.
fn show_sizes(rt: &impl Print, good: [u8; 320]) -> io::Result<()> {
    let many = [good; 17];
    for n in [0, 320, 5119, 5120, 5121, 5440] {
        if let Some(references) = many.as_flattened().get(..n) {
            show_answer(rt, references)?;
        }
    }
    rt.write_all(b"\n")
}

// Reads until the buffer is full or the input ends, and counts the bytes.
fn read_full(input: &mut impl Read, buffer: &mut [u8]) -> io::Result<usize>
    ensures { ReadsAtMost result buffer.new }
{
    let mut done = 0;
    while done < buffer.len() {
        let more = input.read(&mut buffer[done..])?;
        if more == 0 {
            break;
        }
        done += more;
    }
    Ok(done)
}

fn main(rt: HostRuntime) -> io::Result<()> {
    let mut input = [0u8; 16384];
    let n = read_full(&mut rt.stdin(), &mut input)?;
    show_lines(&rt, &input[..n])?;
    for (kind, service) in [
        (DNS, None),
        (SRV, Some(b'm')),
        (URI, Some(b'm')),
        (CN, None),
    ] {
        show_changes(&rt, record(kind, service))?;
    }
    show_sizes(&rt, record(DNS, None))
}

// What a C program calls in place of the program: `namecheck::judge` on four strings that C has read. An export is handed no runtime, and
// without one nothing opens a file or sees the arguments, so these two are C's. `Stdout` takes no bytes: C passes nothing for it.
#![tactic(auto)]

ghost use Rattle.std.specs.Prelude.{◌≡◌};
ghost use Rattle.std.proofs.Math.Option.{some};
ghost use Rattle.reading.specs.Calls.{inputs, verdict_on};
ghost use Rattle.namecheck.specs.Status.{one_length, status_of};

use std::rt::Stdout;

// Writes what is judged; the exit status is that of the verdict on these four strings.
#[unsafe(no_mangle)]
pub extern "C" fn namecheck_run(
    output: Stdout,
    san: &[u8],
    subject: &[u8],
    constraints: &[u8],
    references: &[u8],
) -> u32
    ensures { result ≡ status_of (verdict_on (inputs san.now subject.now constraints.now (some (one_length constraints.now)) references.now)) }
{
    namecheck::judge(&output, san, subject, constraints, references)
}

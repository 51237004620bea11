// Saying on standard error what could not be done, and why.
ghost use Rattle.std.specs.Prelude.{◌≡◌};
ghost use Rattle.std.specs.Process.{exit_status};

use arrayvec::ArrayString;
use std::fmt::Write;
use std::io::Error;
use std::process::ExitCode;

// The system's own words, without the number that `Error` puts behind them.
fn reason(text: &str) -> &str {
    match text.split_once(" (os error ") {
        Some((words, _)) => words,
        None => text,
    }
}

// Says in a line what failed, as the caller names it, and why.
pub fn fail(rt: &impl Eprint, what: &str, error: &Error) {
    let mut words = ArrayString::<256>::new();
    let _ = write!(words, "{error}");
    let reason = reason(words.as_str());
    let _ = eprintln!(rt; "{what}: {reason}");
}

// Says what failed and why. The status is 1.
pub fn failed(rt: &impl Eprint, what: &str, error: &Error) -> ExitCode
    ensures { exit_status result ≡ 1 }
{
    fail(rt, what, error);
    ExitCode::FAILURE
}

// Failures of a program's input and output: what it says of them on standard error, and the status that
// it ends with.
#![tactic(auto)]

ghost use Rattle.std.specs.Prelude.{◌≡◌, ◌↔◌, IsOk};
ghost use Rattle.std.specs.Process.{exit_status};
ghost use Rattle.failures.specs.Statuses.{status_of};

use std::alloc::{AllocError, Global};
use std::fmt::Display;
use std::io;
use std::process::ExitCode;

// What failed, and why.
#[derive(Clone, Copy)]
pub enum Failure {
    Input(io::Error),
    Output(io::Error),
}

// The status of a program whose output nobody reads any more, as a shell has it of one that SIGPIPE ended.
const READER_LEFT: u8 = 128 + 13;

// Says what failed, and why, in the system's words.
pub fn say(rt: &(impl Eprint + AllocGlobal), what: impl Display + Drop, error: &io::Error) {
    let _ = match reason(rt.alloc(), error) {
        Ok(why) => eprintln!(rt; "{what}: {why}"),
        Err(_) => eprintln!(rt; "{what}: {error}"),
    };
}

// The system's words for an error, without its number, which std puts behind them.
fn reason(alloc: Global, error: &io::Error) -> Result<String, AllocError> {
    let whole = format!(in alloc; "{error}")?;
    match whole.as_str().split_once(" (os error ") {
        Some((words, _)) => String::from_str(alloc, words),
        None => Ok(whole),
    }
}

// The status that a program ends with: 0 exactly if all went well. Says before what did not; of a reader
// that has left there is nothing to say.
pub fn end(
    rt: &(impl Eprint + AllocGlobal),
    program: &str,
    outcome: Result<(), Failure>,
) -> ExitCode
    ensures status { exit_status result ≡ status_of outcome }
    ensures ok { (exit_status result ≡ 0) ↔ IsOk outcome }
{
    match outcome {
        Ok(()) => ExitCode::SUCCESS,
        Err(Failure::Input(error)) => {
            say(rt, format_args!("{program}: the input"), &error);
            ExitCode::FAILURE
        }
        Err(Failure::Output(error)) => match error.kind() {
            io::ErrorKind::BrokenPipe => ExitCode::from(READER_LEFT),
            _ => {
                say(rt, format_args!("{program}: standard output"), &error);
                ExitCode::FAILURE
            }
        },
    }
}

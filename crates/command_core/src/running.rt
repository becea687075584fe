//! Does what words ask for, and prints the outcome.

ghost use Rattle.std.specs.Prelude.{◌≡◌, ◌<◌, IfErr, IfOk, Ok, OnErr, OnOk, false, map, string_bytes, true};
ghost use Rattle.command_core.specs.Commands.{AskedComesTo, FolderComesTo};
ghost use Rattle.command_core.specs.Endings.{EndsAsked, EndsWords, IsReportedAs, answer_text};
ghost use Rattle.command_core.specs.Hosts.{Prints, PrintsPrefix};
ghost use Rattle.command_core.specs.Outcomes.{status_of};
ghost use Rattle.command_core.specs.declared.outcome.Outcome.TheVariants as outcomes;
ghost use Rattle.request_core.specs.declared.fault.Fault.TheVariants.{Memory};
ghost use Rattle.words_core.specs.declared.task.Task.TheVariants as tasks;

use crate::explaining::Shown;
use crate::host::Host;
use crate::outcome::{Outcome, outcome_line, status};
use crate::performing::{SumTask, perform};
use crate::sums::run_sums;
use request_core::Fault;
use std::io::Error;
use words_core::{Task, Words, WordsFault};

/// Does what words ask for over the files of a host, prints the outcome there, and returns the status with which the
/// program ends. The words are those of [`Words::read`].
///
/// What was done or judged goes to standard output, a fault to standard error. What explains it is one more line there.
pub fn run_words<H: Host>(host: &mut H, words: &[String]) -> u8
    ensures { EndsWords (map string_bytes words.now) (H.state host.old) (H.state host.new) result }
{
    match Words::read(host.alloc(), words) {
        Ok(read) => run_asked(host, read.task()),
        Err(fault) => run_asked(host, Err(fault)),
    }
}

/// The same for what words were read as.
pub fn run_asked<H: Host>(host: &mut H, asked: Result<Task, WordsFault>) -> u8
    ensures { EndsAsked asked.entry (H.state host.old) (H.state host.new) result }
{
    let outcome = run(host, asked);
    let shown = report(host, outcome);
    host.explain(asked, &shown);
    status(&shown.outcome)
}

/// Does what words ask for. The outcome is the first fault, if there is one.
pub fn run<H: Host>(host: &mut H, asked: Result<Task, WordsFault>) -> Outcome
    ensures { AskedComesTo asked.entry (H.state host.old) (H.state host.new) result }
{
    match asked {
        Ok(task) => run_task(host, task),
        Err(fault) => fault.into(),
    }
}

// Does a task.
fn run_task<H: Host>(host: &mut H, task: Task) -> Outcome
    ensures { AskedComesTo (Ok task.entry) (H.state host.old) (H.state host.new) result }
{
    match run_over_folder(host, task) {
        Ok(outcome) => outcome,
        Err(sums) => Outcome::Summed(run_sums(host, sums.is_check, sums.files)),
    }
}

// Does a task over a folder. If a file was not opened or created because memory ran out, the outcome is `Memory`.
fn run_over_folder<'a, H: Host>(host: &mut H, task: Task<'a>) -> Result<Outcome, SumTask<'a>>
    ensures done { IfOk result (FolderComesTo task.entry (H.state host.old) (H.state host.new)) }
    ensures sums { IfErr result (λ sums. task.entry ≡ tasks.Sum sums.is_check sums.files) }
    ensures same { OnErr result (H.state host.new ≡ H.state host.old) }
{
    let mut files = host.open_folder(true);
    let came = perform(host.alloc(), task, &mut files);
    let has_wanted = host.close_folder(files);
    match came {
        Ok(outcome) => Ok(memory_or(outcome, has_wanted)),
        Err(sums) => Err(sums),
    }
}

// An outcome, or `Memory` in its place if memory was wanted.
fn memory_or(outcome: Outcome, has_wanted_memory: bool) -> Outcome
    ensures same { has_wanted_memory ≡ false → result ≡ outcome }
    ensures memory { has_wanted_memory ≡ true → result ≡ outcomes.Fault Memory }
{
    if has_wanted_memory {
        Fault::Memory.into()
    } else {
        outcome
    }
}

// Prints an outcome, and returns the outcome of that. If there is no memory for its line, this is out of memory; if
// standard output doesn't take the line, it is a failed write.
fn report<H: Host>(host: &mut H, outcome: Outcome) -> Shown
    ensures { IsReportedAs outcome result.outcome (H.state host.old) (H.state host.new) }
{
    let Ok(line) = outcome_line(host.alloc(), &outcome) else {
        return report_unprinted(host, Fault::Memory.into(), None);
    };
    match print_line(host, &outcome, &line) {
        Ok(()) => Shown {
            outcome,
            refusal: None,
        },
        Err(error) => report_unprinted(host, Outcome::WriteFailed, Some(error)),
    }
}

// Prints the line of an outcome. A line on standard error may fail to be written. Sums have printed their lines.
fn print_line<H: Host>(host: &mut H, outcome: &Outcome, line: &str) -> Result<(), Error>
    ensures ok { OnOk result (Prints (H.state host.old) (H.state host.new) (answer_text outcome.now line.now)) }
    ensures err { OnErr result
        (PrintsPrefix (H.state host.old) (H.state host.new) (answer_text outcome.now line.now)) }
    ensures answer { OnErr result (status_of outcome.now < 2) }
{
    if line.is_empty() {
        Ok(())
    } else if status(outcome) < 2 {
        host.print_answer(line)
    } else {
        host.print_fault(line);
        Ok(())
    }
}

// Prints the fault that the outcome was not printed, if there is memory for its line.
fn report_unprinted<H: Host>(host: &mut H, fault: Outcome, refusal: Option<Error>) -> Shown
    ensures outcome { result.outcome ≡ fault }
    ensures same { H.state host.new ≡ H.state host.old }
{
    if let Ok(line) = outcome_line(host.alloc(), &fault) {
        host.print_fault(&line);
    }
    Shown {
        outcome: fault,
        refusal,
    }
}

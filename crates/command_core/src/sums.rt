//! `sum`: prints the sums of files, or judges files by lists of sums.

ghost use Rattle.std.specs.Prelude.{◌≡◌, ◌∷◌, ◌++◌, [], IfOk, IfSome, List, OnOk, codes, map, ℕ};
ghost use Rattle.std.specs.Borrow.{Bor};
ghost use Rattle.std.specs.Str.Lines.{lines};
ghost use Rattle.folder_core.specs.Files.{IsReadOf};
ghost use Rattle.command_core.specs.Hosts.{Prints, PrintsSome};
ghost use Rattle.command_core.specs.SumEndings.{BytesComeTo, EndsSums, FileComesTo, HaveWorst, LineComesTo, ListComesTo, WordComesTo};
ghost use Rattle.command_core.specs.Summing.{IsNamedIn, JudgesLine, ShowsSums, name_text};
ghost use Rattle.command_core.specs.declared.sum_status.SumStatus.TheVariants as statuses;

use crate::explaining::Shown;
use crate::host::Host;
use crate::listing::listed_name;
use crate::outcome::{Outcome, outcome_line};
use crate::spelling::spelled;
use crate::sum_status::SumStatus;
use crate::summing::{is_as_listed, push_name, sum_line};
use ended_core::{Ended, Summed};
use folder_core::read_file;
use request_core::Fault;
use std::alloc::Global;
use std::io::Error;
use transfer_commands::CommandFault;
use words_core::Task;

/// Does what `sum` asks for, file by file, and returns the worst status of the files.
///
/// If standard output doesn't take a line, no more files are read.
pub(crate) fn run_sums<H: Host>(host: &mut H, is_check: bool, files: &[&str]) -> SumStatus
    ensures { EndsSums is_check (map (λ (file : Bor (List ℕ)). file.now) files.now)
        (H.state host.old) (H.state host.new) result }
{
    let mut worst = SumStatus::Done;
    for file in files {
        match word_status(host, is_check, file) {
            Ok(status) => worst = status.or(worst),
            Err(error) => return unwritten(host, Task::Sum { is_check, files }, error),
        }
    }
    worst
}

// Judges the files of a list, or sums a file, and returns the status.
fn word_status<H: Host>(host: &mut H, is_check: bool, file: &str) -> Result<SumStatus, Error>
    ensures comes { IfOk result (WordComesTo is_check file.now (H.state host.old) (H.state host.new)) }
    ensures printed { PrintsSome (H.state host.old) (H.state host.new) }
{
    if is_check {
        check_list(host, file)
    } else {
        sum_one(host, file)
    }
}

// Prints the line of a file, and returns its status; Err where standard output doesn't take it.
fn sum_one<H: Host>(host: &mut H, name: &str) -> Result<SumStatus, Error>
    ensures comes { IfOk result (FileComesTo name.now (H.state host.old) (H.state host.new)) }
    ensures printed { PrintsSome (H.state host.old) (H.state host.new) }
{
    match sum_in_folder(host, name) {
        Ok(line) => put_line(host, &line, ""),
        Err(fault) => Ok(tell_fault(host, fault, Summed::File(name))),
    }
}

// The line of a file. If it was not opened because memory ran out, the fault is `Memory`.
fn sum_in_folder<H: Host>(host: &mut H, name: &str) -> Result<Vec<u8>, CommandFault>
    ensures shows { IfOk result (λ line. ShowsSums name.now (H.state host.old).view (H.state host.old).view line.items) }
    ensures same { H.state host.new ≡ H.state host.old }
{
    let mut files = host.open_folder(true);
    let came = sum_line(host.alloc(), &mut files, name);
    if host.close_folder(files) {
        return Err(Fault::Memory.into());
    }
    came
}

// Judges the files of a list, and returns the worst status of its lines.
fn check_list<H: Host>(host: &mut H, list: &str) -> Result<SumStatus, Error>
    ensures comes { IfOk result (ListComesTo list.now (H.state host.old) (H.state host.new)) }
    ensures printed { PrintsSome (H.state host.old) (H.state host.new) }
{
    match read_list(host, list) {
        Ok(bytes) => check_bytes(host, list, &bytes),
        Err(fault) => Ok(tell_fault(host, fault, Summed::List(list))),
    }
}

// The bytes of a list. If it was not opened because memory ran out, the fault is `Memory`.
fn read_list<H: Host>(host: &mut H, list: &str) -> Result<Vec<u8>, CommandFault>
    ensures read { IfOk result (λ bytes. IsReadOf (H.state host.old).view list.now bytes.items) }
    ensures same { H.state host.new ≡ H.state host.old }
{
    let mut files = host.open_folder(false);
    let came = read_file(host.alloc(), &mut files, list);
    if host.close_folder(files) {
        return Err(Fault::Memory.into());
    }
    match came {
        Ok(bytes) => Ok(bytes),
        Err(fault) => Err(fault.into()),
    }
}

// Judges the files of a list's lines. A list that isn't text, since it has a NUL, or has no line is refused. A line
// that isn't UTF-8 is one of sums, too, but its name is no name of a file.
fn check_bytes<H: Host>(host: &mut H, list: &str, bytes: &[u8]) -> Result<SumStatus, Error>
    ensures comes { IfOk result (BytesComeTo bytes.now (H.state host.old) (H.state host.new)) }
    ensures printed { PrintsSome (H.state host.old) (H.state host.new) }
{
    if bytes.contains(&0) {
        return Ok(refuse_list(host, list, 0));
    }
    match spelled(host.alloc(), bytes) {
        Ok(text) if text.is_empty() => Ok(refuse_list(host, list, 0)),
        Ok(text) => check_lines(host, list, &text),
        Err(_) => Ok(tell_fault(host, Fault::Memory.into(), Summed::List(list))),
    }
}

// Judges the files of the lines of a text, and returns the worst status.
fn check_lines<H: Host>(host: &mut H, list: &str, text: &str) -> Result<SumStatus, Error>
    ensures comes { IfOk result (HaveWorst LineComesTo (lines text.now) (H.state host.old) (H.state host.new)) }
    ensures printed { PrintsSome (H.state host.old) (H.state host.new) }
{
    let mut worst = SumStatus::Done;
    let mut number = 0usize;
    for line in text.lines() {
        number = number.saturating_add(1);
        let status = check_line(host, list, number, line)?;
        worst = status.or(worst);
    }
    Ok(worst)
}

// Judges the file of a line. A line that isn't one of sums is refused.
fn check_line<H: Host>(
    host: &mut H,
    list: &str,
    number: usize,
    line: &str,
) -> Result<SumStatus, Error>
    ensures comes { IfOk result (LineComesTo line.now (H.state host.old) (H.state host.new)) }
    ensures printed { PrintsSome (H.state host.old) (H.state host.new) }
{
    match listed_name(host.alloc(), line) {
        Ok(Some(name)) => check_one(host, &name, line, number, list),
        Ok(None) => Ok(refuse_list(host, list, number)),
        Err(_) => Ok(tell_fault(host, Fault::Memory.into(), Summed::List(list))),
    }
}

// Judges the file of a name by the line that has it, and prints whether it is as listed.
fn check_one<H: Host>(
    host: &mut H,
    name: &str,
    line: &str,
    number: usize,
    list: &str,
) -> Result<SumStatus, Error>
    requires named { IsNamedIn line.now name.now }
    ensures comes { IfOk result (LineComesTo line.now (H.state host.old) (H.state host.new)) }
    ensures printed { PrintsSome (H.state host.old) (H.state host.new) }
{
    let file = Summed::Listed(name, number, list);
    let came = judge_in_folder(host, name, line);
    let Some(shown) = shown_name(host.alloc(), name) else {
        return Ok(tell_fault(host, Fault::Memory.into(), file));
    };
    match came {
        Ok(true) => put_line(host, &shown, ": OK"),
        Ok(false) => put_failed(host, &shown),
        Err(fault) => put_unjudged(host, &shown, fault, file),
    }
}

// Whether a file is as a line says. If it was not opened because memory ran out, the fault is `Memory`.
fn judge_in_folder<H: Host>(host: &mut H, name: &str, line: &str) -> Result<bool, CommandFault>
    ensures judges { IfOk result (JudgesLine name.now line.now (H.state host.old).view (H.state host.old).view) }
    ensures same { H.state host.new ≡ H.state host.old }
{
    let mut files = host.open_folder(true);
    let came = is_as_listed(host.alloc(), &mut files, name, line.as_bytes());
    if host.close_folder(files) {
        return Err(Fault::Memory.into());
    }
    came
}

// Prints a line and what is after it, and returns the status of a file that was done.
fn put_line<H: Host>(host: &mut H, line: &[u8], after: &str) -> Result<SumStatus, Error>
    ensures done { IfOk result (λ status. status ≡ statuses.Done) }
    ensures ok { OnOk result (Prints (H.state host.old) (H.state host.new) (line.now ++ (after.now ++ 10 ∷ []))) }
    ensures printed { PrintsSome (H.state host.old) (H.state host.new) }
{
    host.print_sums(line, after)?;
    Ok(SumStatus::Done)
}

// Prints that a file is not as listed, and returns its status.
fn put_failed<H: Host>(host: &mut H, shown: &[u8]) -> Result<SumStatus, Error>
    ensures failed { IfOk result (λ status. status ≡ statuses.NotAsListed) }
    ensures ok { OnOk result (Prints (H.state host.old) (H.state host.new) (shown.now ++ (codes ": FAILED" ++ 10 ∷ []))) }
    ensures printed { PrintsSome (H.state host.old) (H.state host.new) }
{
    host.print_sums(shown, ": FAILED")?;
    Ok(SumStatus::NotAsListed)
}

// Prints that a file is not as listed, and the fault for which it was not judged.
fn put_unjudged<H: Host>(
    host: &mut H,
    shown: &[u8],
    fault: CommandFault,
    file: Summed,
) -> Result<SumStatus, Error>
    ensures failed { IfOk result (λ status. status ≡ statuses.Failed) }
    ensures ok { OnOk result (Prints (H.state host.old) (H.state host.new) (shown.now ++ (codes ": FAILED" ++ 10 ∷ []))) }
    ensures printed { PrintsSome (H.state host.old) (H.state host.new) }
{
    host.print_sums(shown, ": FAILED")?;
    Ok(tell_fault(host, fault, file))
}

// Prints the fault of a file and its name, and returns its status.
fn tell_fault<H: Host>(host: &mut H, fault: CommandFault, file: Summed) -> SumStatus
    ensures failed { result ≡ statuses.Failed }
    ensures same { H.state host.new ≡ H.state host.old }
{
    let outcome = Outcome::from(fault);
    match outcome_line(host.alloc(), &outcome) {
        Ok(line) => tell_named(host, &line, name_of(file)),
        Err(_) => tell_want(host),
    }
    host.explain_sum(file, ended_by(fault));
    SumStatus::Failed
}

// What there is to explain of a file that could not be summed or judged.
fn ended_by(fault: CommandFault) -> Ended {
    match fault {
        CommandFault::Call(fault) => Ended::Fault(fault),
        CommandFault::ReadFailed => Ended::ReadFailed,
        CommandFault::WriteFailed => Ended::WriteFailed(None),
    }
}

// Prints that a line of a list isn't one of sums, or, for the line 0, that the list has none, and returns the status.
fn refuse_list<H: Host>(host: &mut H, list: &str, number: usize) -> SumStatus
    ensures failed { result ≡ statuses.Failed }
    ensures same { H.state host.new ≡ H.state host.old }
{
    match refused_line(host.alloc(), number) {
        Some(line) => tell_named(host, &line, list),
        None => tell_want(host),
    }
    host.explain_sum(Summed::List(list), Ended::ListRefused(number));
    SumStatus::Failed
}

// The line of a list that is refused; None if there is no memory for it.
fn refused_line(alloc: Global, number: usize) -> Option<String> {
    if number == 0 {
        format!(in alloc; "fault: ListRefused").ok()
    } else {
        format!(in alloc; "fault: ListRefused line {number}").ok()
    }
}

// Prints a line, two blanks and a name on standard error, which may fail. If there is no memory for the name, it is
// left out.
fn tell_named<H: Host>(host: &mut H, line: &str, name: &str)
    ensures same { H.state host.new ≡ H.state host.old }
{
    match named_line(host.alloc(), line, name) {
        Some(text) => host.print_fault(&text),
        None => host.print_fault(line),
    }
}

// Prints that there is no memory for a line.
fn tell_want<H: Host>(host: &mut H)
    ensures same { H.state host.new ≡ H.state host.old }
{
    host.print_fault("fault: Memory");
}

// Prints that standard output doesn't take the line of a file or of a list, and returns the status.
fn unwritten<H: Host>(host: &mut H, task: Task, error: Error) -> SumStatus
    ensures failed { result ≡ statuses.Failed }
    ensures same { H.state host.new ≡ H.state host.old }
{
    host.print_fault("fault: WriteFailed");
    let shown = Shown {
        outcome: Outcome::WriteFailed,
        refusal: Some(error),
    };
    host.explain(Ok(task), &shown);
    SumStatus::Failed
}

// The name of a file.
fn name_of(file: Summed<'_>) -> &str {
    match file {
        Summed::File(name) => name,
        Summed::List(name) => name,
        Summed::Listed(name, _, _) => name,
    }
}

// A name on one line; None if there is no memory for it.
fn shown_name(alloc: Global, name: &str) -> Option<Vec<u8>>
    ensures { IfSome result (λ shown. shown.items ≡ name_text name.now) }
{
    let mut shown = Vec::new(alloc);
    push_name(&mut shown, name.as_bytes()).ok()?;
    Some(shown)
}

// A line and after two blanks a name; None if there is no memory for it.
fn named_line(alloc: Global, line: &str, name: &str) -> Option<String> {
    let shown = shown_name(alloc, name)?;
    let text = String::from_utf8_lossy(alloc, &shown).ok()?;
    format!(in alloc; "{line}  {text}").ok()
}

//! The outcome of a command, the line that is printed, and the status with which the program ends.

ghost use Rattle.std.specs.Prelude.{◌≡◌, ◌≤◌, ◌++◌, IfOk, codes, string_bytes};
ghost use Rattle.std.specs.Fmt.{decimal};
ghost use Rattle.command_core.specs.Outcomes.{ShowsOutcome, of_between, of_command, of_dop, of_part, of_speakers, of_test, of_words, status_of, tested_status};
ghost use Rattle.command_core.specs.Texts.{dop_text, fault_text, neighbour_text, reason_text, span_text};
ghost use Rattle.command_core.specs.declared.outcome.Outcome.TheVariants as outcomes;

use crate::dop_texts::push_dop_fault;
use crate::sum_status::SumStatus;
use crate::texts::{name_of_span, push_fault, push_neighbour_fault, push_reason};
use archive_core::{Fault, Reason};
use dop_core::DopFault;
use form_core::info_lines;
use null_commands::{TestFault, Tested, tested_lines};
use null_core::Verdict;
use std::alloc::{AllocError, Global};
use transfer_commands::{
    BetweenFault, CommandFault, DopConvertFault, NeighbourFault, PartFault, PlayedSpeakers,
    Reported, SpeakersFault,
};
use transfer_core::SpanFault;
use words_core::WordsFault;

/// The outcome of a command.
#[derive(Drop)]
pub enum Outcome {
    /// A file was played; its WAVE file has this many bytes.
    Played(u64),
    /// A file was played with the loudspeakers of its channels; this is the size of its WAVE file, and their mask.
    Spoken(PlayedSpeakers),
    /// A file was converted; this many parts of its recording have no place in the other form.
    Converted(u64),
    /// A master was cut; this is the cost of the bridges of all its channels.
    Edited(u128),
    /// A master was accepted; this is the cost of the bridges of all its channels.
    Accepted(u128),
    /// A master was rejected for this reason.
    Rejected(Reason),
    /// A master was compared with a mix; this is what was heard.
    NullTested(Tested),
    /// A file was read; this is what is reported of it, its form and its recording.
    Info(Reported),
    /// Files were summed, or judged by lists of sums; their lines are printed as it goes.
    Summed(SumStatus),
    /// The call was refused.
    Fault(Fault),
    /// There is no such part in the recording.
    NoPart(SpanFault),
    /// The file before can't be a neighbour, for this fault.
    NoPrevious(NeighbourFault),
    /// The file after can't be a neighbour, for this fault.
    NoNext(NeighbourFault),
    /// A file isn't one of DoP samples, for this fault, the first one.
    DopUnread(DopFault),
    /// No channel type has the loudspeakers of a file's channels.
    NoChannelType,
    /// A file could not be opened or read.
    ReadFailed,
    /// A file could not be created or written.
    WriteFailed,
    /// The words are no command.
    WrongWords,
    /// The form that is named isn't known.
    UnknownFormName,
}

impl From<Fault> for Outcome {
    ghost from_gives = { λ fault outcome. outcome ≡ outcomes.Fault fault };

    fn from(fault: Fault) -> Outcome {
        Outcome::Fault(fault)
    }
}

impl From<CommandFault> for Outcome {
    ghost from_gives = { λ fault outcome. outcome ≡ of_command fault };

    fn from(fault: CommandFault) -> Outcome {
        match fault {
            CommandFault::Call(fault) => Outcome::Fault(fault),
            CommandFault::ReadFailed => Outcome::ReadFailed,
            CommandFault::WriteFailed => Outcome::WriteFailed,
        }
    }
}

impl From<PartFault> for Outcome {
    ghost from_gives = { λ fault outcome. outcome ≡ of_part fault };

    fn from(fault: PartFault) -> Outcome {
        match fault {
            PartFault::Command(fault) => fault.into(),
            PartFault::Span(fault) => Outcome::NoPart(fault),
        }
    }
}

impl From<BetweenFault> for Outcome {
    ghost from_gives = { λ fault outcome. outcome ≡ of_between fault };

    fn from(fault: BetweenFault) -> Outcome {
        match fault {
            BetweenFault::Command(fault) => fault.into(),
            BetweenFault::Previous(fault) => Outcome::NoPrevious(fault),
            BetweenFault::Next(fault) => Outcome::NoNext(fault),
        }
    }
}

impl From<SpeakersFault> for Outcome {
    ghost from_gives = { λ fault outcome. outcome ≡ of_speakers fault };

    fn from(fault: SpeakersFault) -> Outcome {
        match fault {
            SpeakersFault::Command(fault) => fault.into(),
            SpeakersFault::NoChannelType => Outcome::NoChannelType,
        }
    }
}

impl From<DopConvertFault> for Outcome {
    ghost from_gives = { λ fault outcome. outcome ≡ of_dop fault };

    fn from(fault: DopConvertFault) -> Outcome {
        match fault {
            DopConvertFault::Command(fault) => fault.into(),
            DopConvertFault::Refused(fault) => Outcome::DopUnread(fault),
        }
    }
}

impl From<TestFault> for Outcome {
    ghost from_gives = { λ fault outcome. outcome ≡ of_test fault };

    fn from(fault: TestFault) -> Outcome {
        match fault {
            TestFault::Call(fault) => Outcome::Fault(fault),
            TestFault::ReadFailed => Outcome::ReadFailed,
        }
    }
}

impl From<WordsFault<'_>> for Outcome {
    ghost from_gives = { λ fault outcome. outcome ≡ of_words fault };

    fn from(fault: WordsFault<'_>) -> Outcome {
        match fault {
            WordsFault::NoCommand
            | WordsFault::UnknownCommand(_)
            | WordsFault::WrongUsage(_, _)
            | WordsFault::NoText(_) => Outcome::WrongWords,
            WordsFault::UnknownForm(_, _) => Outcome::UnknownFormName,
            WordsFault::Memory => Outcome::Fault(Fault::Memory),
        }
    }
}

/// The line or lines that are printed, without the end of the last; none for `sum`. Err is out of memory.
pub fn outcome_line(alloc: Global, outcome: &Outcome) -> Result<String, AllocError>
    ensures { IfOk result (λ line. ShowsOutcome outcome.now (string_bytes line)) }
{
    match outcome {
        Outcome::Played(count) => played_line(alloc, *count),
        Outcome::Spoken(played) => played_line(alloc, played.size),
        Outcome::Converted(dropped) => format!(in alloc; "converted dropped {dropped}"),
        Outcome::Edited(total) => format!(in alloc; "edited total {total}"),
        Outcome::Accepted(total) => format!(in alloc; "accepted total {total}"),
        Outcome::Rejected(reason) => rejected_line(alloc, *reason),
        Outcome::NullTested(tested) => tested_lines(alloc, tested),
        Outcome::Info(reported) => info_lines(alloc, reported.form, &reported.description),
        Outcome::Summed(_) => Ok(String::new(alloc)),
        Outcome::Fault(fault) => fault_line(alloc, *fault),
        Outcome::NoPart(fault) => part_line(alloc, *fault),
        Outcome::NoPrevious(fault) => neighbour_line(alloc, "fault: Previous ", *fault),
        Outcome::NoNext(fault) => neighbour_line(alloc, "fault: Next ", *fault),
        Outcome::DopUnread(fault) => dop_line(alloc, *fault),
        Outcome::NoChannelType => format!(in alloc; "fault: NoChannelType"),
        Outcome::ReadFailed => format!(in alloc; "fault: ReadFailed"),
        Outcome::WriteFailed => format!(in alloc; "fault: WriteFailed"),
        Outcome::WrongWords => format!(in alloc; "fault: WrongWords"),
        Outcome::UnknownFormName => format!(in alloc; "fault: UnknownFormName"),
    }
}

// The line of a file that was played.
fn played_line(alloc: Global, count: u64) -> Result<String, AllocError>
    ensures { IfOk result (λ line. string_bytes line ≡ codes "played " ++ decimal count ++ codes " bytes") }
{
    format!(in alloc; "played {count} bytes")
}

// The line of a master that is rejected.
fn rejected_line(alloc: Global, reason: Reason) -> Result<String, AllocError>
    ensures { IfOk result (λ line. string_bytes line ≡ codes "rejected " ++ reason_text reason) }
{
    let mut line = String::from_str(alloc, "rejected ")?;
    push_reason(&mut line, reason)?;
    Ok(line)
}

// The line of a call that was refused.
fn fault_line(alloc: Global, fault: Fault) -> Result<String, AllocError>
    ensures { IfOk result (λ line. string_bytes line ≡ codes "fault: " ++ fault_text fault) }
{
    let mut line = String::from_str(alloc, "fault: ")?;
    push_fault(&mut line, fault)?;
    Ok(line)
}

// The line of a part that isn't in the recording.
fn part_line(alloc: Global, fault: SpanFault) -> Result<String, AllocError>
    ensures { IfOk result (λ line. string_bytes line ≡ codes "fault: " ++ span_text fault) }
{
    let name = name_of_span(fault);
    format!(in alloc; "fault: {name}")
}

// The line of a file that is no neighbour of another, which begins so.
fn neighbour_line(alloc: Global, begin: &str, fault: NeighbourFault) -> Result<String, AllocError>
    ensures { IfOk result (λ line. string_bytes line ≡ begin.now ++ neighbour_text fault) }
{
    let mut line = String::from_str(alloc, begin)?;
    push_neighbour_fault(&mut line, fault)?;
    Ok(line)
}

// The line of a file that isn't one of DoP samples.
fn dop_line(alloc: Global, fault: DopFault) -> Result<String, AllocError>
    ensures { IfOk result (λ line. string_bytes line ≡ codes "fault: FileUnread Dop " ++ dop_text fault) }
{
    let mut line = String::from_str(alloc, "fault: FileUnread Dop ")?;
    push_dop_fault(&mut line, fault)?;
    Ok(line)
}

/// The program's exit status: 0 if the command was done, 1 for a master that is rejected, also by a null test, or a file
/// that is not as it is listed, 2 for a fault, 3 for words that are no command or name no form.
pub fn status(outcome: &Outcome) -> u8
    ensures value { result ≡ status_of outcome.now }
    ensures limit { result ≤ 3 }
{
    match outcome {
        Outcome::Played(_)
        | Outcome::Spoken(_)
        | Outcome::Converted(_)
        | Outcome::Edited(_)
        | Outcome::Accepted(_)
        | Outcome::Info(_) => 0,
        Outcome::Rejected(_) => 1,
        Outcome::NullTested(tested) => status_of_test(tested),
        Outcome::Summed(status) => status.number(),
        Outcome::Fault(_)
        | Outcome::NoPart(_)
        | Outcome::NoPrevious(_)
        | Outcome::NoNext(_)
        | Outcome::DopUnread(_)
        | Outcome::NoChannelType
        | Outcome::ReadFailed
        | Outcome::WriteFailed => 2,
        Outcome::WrongWords | Outcome::UnknownFormName => 3,
    }
}

// 0 if a null test accepts a master, 1 if it rejects it or its file holds no recording.
fn status_of_test(tested: &Tested) -> u8
    ensures value { result ≡ tested_status tested.now.heard }
    ensures limit { result ≤ 1 }
{
    match &tested.heard {
        Ok(heard) => match heard.verdict {
            Verdict::Accepted(_) => 0,
            _ => 1,
        },
        Err(_) => 1,
    }
}

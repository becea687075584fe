//! Commands over the files of a folder.

ghost use Rattle.std.specs.Prelude.{◌≡◌, IfErr, IfOk, None, OnErr};
ghost use Rattle.command_core.specs.Commands.{CheckComesTo, ConvertsAs, EditComesTo, IsConverting, IsPlayedBetween, IsPlayedPart, IsPlayedWhole, PlaysAs, PlaysBetweenAs, PlaysPartAs, TaskComesTo, cut_into};
ghost use Rattle.command_core.specs.Outcomes.{between_outcome_of, dop_outcome_of, outcome_of, part_outcome_of, speakers_outcome_of, spoken_between_outcome_of, spoken_outcome_of, tested_outcome, verdict_of};
ghost use Rattle.command_core.specs.declared.outcome.Outcome.TheVariants as outcomes;
ghost use Rattle.words_core.specs.declared.task.Task.TheVariants as tasks;

use crate::ending::fault_after;
use crate::judging::judge_opened;
use crate::masters::find_named;
use crate::outcome::Outcome;
use crate::sources::{cut_of, cut_sources};
use crate::writing::{write_certificate, write_master};
use archive_core::{Form, Verdict};
use folder_core::Folder;
use null_commands::{TestFault, Tested, null_test_files};
use std::alloc::Global;
use transfer_commands::{
    BetweenAsked, BetweenFault, CommandFault, DopConvertFault, NeighbourNames, PartAsked,
    PartFault, PlayedSpeakers, Reported, SpeakersFault, convert_dop_file, convert_file,
    convert_speakers_file, open_file, play_between_file, play_between_speakers_file, play_dop_file,
    play_file, play_part_file, play_speakers_file, source_excerpts,
};
use transfer_core::Span;
use words_core::Task;

/// What `sum` asks for: files to sum, or if `is_check` is set, lists of sums by which files are judged.
#[derive(Clone, Copy)]
pub struct SumTask<'a> {
    /// Whether files are judged.
    pub is_check: bool,
    /// The names of the files or lists.
    pub files: &'a [&'a str],
}

/// Does a command over the files of a folder, and returns its outcome: the first fault, if there is one.
///
/// Files are opened in the order in which the command names them, and the takes of a project or a mix after it by their
/// numbers. Each is read to its end before the next is opened, and a file is created only once the call has an answer,
/// except as follows:
///
/// - `Edit`: The master is made while it is written. All memory that this needs is reserved before the master is
///   created. Its certificate is created once the master is complete.
/// - `Play`: The recording is opened and the WAVE file created. Then the one is read and the other written, piece by
///   piece.
/// - `PlayPart`: The recording is read through as for `Info`, to find the part. Then it is played as by `Play`, and
///   what lies before the part is dropped. One that can't be opened again is played in the same opening.
/// - `PlayBetween`: After the recording, the files before and after it are opened, one after the other, and read as far
///   as the filter reaches and for what is around their sound. Then it is played as by `Play`.
/// - `PlayDop`: As `Play`, without a project.
/// - `Play` with `rf64`: as `PlayPart`.
/// - `Play`, `PlayPart` and `PlayBetween` with `speakers`: the recording is read through as for `Info` before that, for
///   its loudspeakers and the part. One that can't be opened again is held whole instead.
/// - `Convert` and `Check`: see below.
///
/// `Check` reads a master once, and its certificate while the master is judged. Both are read to their ends, whatever
/// the verdict is. Of the master only a few blocks and the bits of its bridges are held, of the certificate two rows
/// and a block.
///
/// `NullTest` reads the mix, its takes and the master once; of a take that holds no recording, only up to where that is
/// sure. A fault of the mix text is returned at once, one in what the takes hold, or a reason against the master, only
/// after all were read. Of the takes only the bits are held that clips and their decoders reach, of the master those that
/// the takes don't have where they are asked for.
///
/// A recording for `Convert` or `Info`, and a take, is read in one pass without its sound, and refused for its first
/// fault; of a take the bits that cues and bridges read are kept. To convert it, it is opened once more, the other file
/// is created, and the one is read and the other written block by block. A recording for `Convert` that can't be opened
/// again, as a pipe, is held whole instead, and so is a file for `ConvertDop`.
///
/// After a fault of playing, or of such a conversion, the file that was created may hold a prefix of what was due. It
/// never replaces an old file if the folder keeps old files.
///
/// `sum` reads each of its files in a folder of its own. So for it nothing is done, and Err says what it asks for.
pub fn perform<'a, F: Folder>(
    alloc: Global,
    task: Task<'a>,
    folder: &mut F,
) -> Result<Outcome, SumTask<'a>>
    ensures done { IfOk result (TaskComesTo task.entry (F.view folder.old) (F.view folder.new)) }
    ensures sums { IfErr result (λ sums. task.entry ≡ tasks.Sum sums.is_check sums.files) }
    ensures same { OnErr result (F.view folder.new ≡ F.view folder.old) }
{
    match task {
        Task::Play { .. } => Ok(play_whole(alloc, task, folder)),
        Task::PlayPart { .. } => Ok(play_inside(alloc, task, folder)),
        Task::PlayBetween { .. } => Ok(play_beside(alloc, task, folder)),
        Task::PlayDop { input, output } => Ok(played(play_dop_file(alloc, folder, input, output))),
        Task::Convert { .. } | Task::ConvertDop { .. } => Ok(perform_convert(alloc, task, folder)),
        Task::Edit {
            form,
            project,
            master,
            cert,
        } => Ok(edited(edit_files(alloc, folder, form, project, master, cert))),
        Task::Check {
            project,
            master,
            cert,
        } => Ok(judged(check_files(alloc, folder, project, master, cert))),
        Task::NullTest { mix, master } => Ok(tested(null_test_files(alloc, folder, mix, master))),
        Task::Info { file } => Ok(reported(open_file(alloc, folder, file))),
        Task::Sum { is_check, files } => Err(SumTask { is_check, files }),
    }
}

// Plays all of a file.
fn play_whole<F: Folder>(alloc: Global, task: Task, folder: &mut F) -> Outcome
    requires { IsPlayedWhole task }
    ensures { TaskComesTo task.entry (F.view folder.old) (F.view folder.new) result }
{
    match task {
        Task::Play {
            project,
            input,
            output,
            speakers,
            rf64,
        } => {
            let all = Span {
                from: None,
                to: None,
            };
            let asked = PartAsked {
                span: all,
                is_wide: rf64,
            };
            let whole = PartTask {
                project,
                input,
                output,
                asked,
                speakers,
            };
            play_all(alloc, folder, whole)
        }
        _ => unreachable!(),
    }
}

// Plays a part of a file.
fn play_inside<F: Folder>(alloc: Global, task: Task, folder: &mut F) -> Outcome
    requires { IsPlayedPart task }
    ensures { TaskComesTo task.entry (F.view folder.old) (F.view folder.new) result }
{
    match task {
        Task::PlayPart {
            project,
            input,
            output,
            from,
            to,
            speakers,
            rf64,
        } => {
            let asked = PartAsked {
                span: Span { from, to },
                is_wide: rf64,
            };
            let part = PartTask {
                project,
                input,
                output,
                asked,
                speakers,
            };
            play_some(alloc, folder, part)
        }
        _ => unreachable!(),
    }
}

// Plays a file between its neighbours.
fn play_beside<F: Folder>(alloc: Global, task: Task, folder: &mut F) -> Outcome
    requires { IsPlayedBetween task }
    ensures { TaskComesTo task.entry (F.view folder.old) (F.view folder.new) result }
{
    match task {
        Task::PlayBetween {
            project,
            input,
            output,
            previous,
            next,
            speakers,
            rf64,
        } => {
            let asked = BetweenAsked {
                around: NeighbourNames { previous, next },
                is_wide: rf64,
            };
            let between = BetweenTask {
                project,
                input,
                output,
                asked,
                speakers,
            };
            play_around(alloc, folder, between)
        }
        _ => unreachable!(),
    }
}

// Does a task that converts.
fn perform_convert<F: Folder>(alloc: Global, task: Task, folder: &mut F) -> Outcome
    requires { IsConverting task }
    ensures { TaskComesTo task.entry (F.view folder.old) (F.view folder.new) result }
{
    match task {
        Task::Convert {
            form,
            input,
            output,
            speakers,
        } => convert_all(alloc, folder, form, input, output, speakers),
        Task::ConvertDop {
            form,
            input,
            output,
        } => converted_dop(convert_dop_file(alloc, folder, form, input, output)),
        _ => unreachable!(),
    }
}

// Converts a file, with the loudspeakers of its channels if they are asked for.
fn convert_all<F: Folder>(
    alloc: Global,
    folder: &mut F,
    form: Form,
    input: &str,
    output: &str,
    speakers: bool,
) -> Outcome
    ensures { ConvertsAs speakers form input.now output.now (F.view folder.old) (F.view folder.new) result }
{
    if speakers {
        converted_speakers(convert_speakers_file(alloc, folder, form, input, output))
    } else {
        converted(convert_file(alloc, folder, form, input, output))
    }
}

// A part that is asked for, and whether the loudspeakers of the channels are.
#[derive(Clone, Copy)]
struct PartTask<'a> {
    project: &'a str,
    input: &'a str,
    output: &'a str,
    asked: PartAsked,
    speakers: bool,
}

// Plays all of a file, with what is asked of the header of its WAVE file.
fn play_all<F: Folder>(alloc: Global, folder: &mut F, all: PartTask<'_>) -> Outcome
    requires { all.asked.span ≡ record { from = None; to = None } }
    ensures { PlaysAs all.entry.speakers all.entry.asked.is_wide all.entry.project.now all.entry.input.now
        all.entry.output.now (F.view folder.old) (F.view folder.new) result }
{
    if all.speakers || all.asked.is_wide {
        return play_some(alloc, folder, all);
    }
    played(play_file(alloc, folder, all.project, all.input, all.output))
}

// Plays a part of a file, with the loudspeakers of its channels if they are asked for.
fn play_some<F: Folder>(alloc: Global, folder: &mut F, part: PartTask<'_>) -> Outcome
    ensures { PlaysPartAs part.entry.speakers part.entry.asked.is_wide part.entry.project.now part.entry.input.now
        part.entry.output.now part.entry.asked.span (F.view folder.old) (F.view folder.new) result }
{
    let PartTask {
        project,
        input,
        output,
        asked,
        speakers,
    } = part;
    if speakers {
        spoken(play_speakers_file(alloc, folder, project, input, output, asked))
    } else {
        played_part(play_part_file(alloc, folder, project, input, output, asked))
    }
}

// What is asked for of a file between its neighbours, and whether the loudspeakers of the channels are.
#[derive(Clone, Copy)]
struct BetweenTask<'a> {
    project: &'a str,
    input: &'a str,
    output: &'a str,
    asked: BetweenAsked<'a>,
    speakers: bool,
}

// Plays a file between its neighbours, with the loudspeakers of its channels if they are asked for.
fn play_around<F: Folder>(alloc: Global, folder: &mut F, between: BetweenTask<'_>) -> Outcome
    ensures { PlaysBetweenAs between.entry.speakers between.entry.asked.is_wide between.entry.project.now
        between.entry.input.now between.entry.output.now between.entry.asked.around (F.view folder.old)
        (F.view folder.new) result }
{
    let BetweenTask {
        project,
        input,
        output,
        asked,
        speakers,
    } = between;
    if speakers {
        spoken_between(play_between_speakers_file(alloc, folder, project, input, output, asked))
    } else {
        played_between(play_between_file(alloc, folder, project, input, output, asked))
    }
}

// Reads the project and its takes, and plans the master with all memory that both files need. Only then is the file of
// the master created, and that of the certificate once the master is written and kept.
fn edit_files<F: Folder>(
    alloc: Global,
    folder: &mut F,
    form: Form,
    project: &str,
    master: &str,
    cert: &str,
) -> Result<u128, CommandFault>
    ensures { EditComesTo (cut_into form project.now master.now cert.now) (F.view folder.old) (F.view folder.new)
        result }
{
    let sources = source_excerpts(alloc, folder, project)?;
    let mut planned = cut_sources(alloc, folder, sources, form)?;
    let total = planned.total();
    write_master(folder, &mut planned, master, cert)?;
    write_certificate(folder, planned, cert)?;
    Ok(total)
}

// Reads the project and its takes, then a master, and judges it by its certificate while that is read. Both are read to
// their ends before a fault in the takes, or a reason against the master, is returned.
fn check_files<F: Folder>(
    alloc: Global,
    folder: &mut F,
    project: &str,
    master: &str,
    cert: &str,
) -> Result<Verdict, CommandFault>
    ensures { CheckComesTo project.now master.now cert.now (F.view folder.old) (F.view folder.new) result }
{
    let sources = source_excerpts(alloc, folder, project)?;
    let cut = match cut_of(sources, None) {
        Ok(cut) => cut,
        Err(fault) => return Err(fault_after(folder, master, cert, fault)),
    };
    let found = find_named(alloc, folder, &cut, master)?;
    let Ok(file) = folder.open(cert) else {
        return Err(CommandFault::ReadFailed);
    };
    judge_opened(alloc, &cut, &found, file)
}

// The outcome of a command that played.
fn played(came: Result<u64, CommandFault>) -> Outcome
    ensures { result ≡ outcome_of outcomes.Played came }
{
    match came {
        Ok(count) => Outcome::Played(count),
        Err(fault) => fault.into(),
    }
}

// The outcome of a command that played a part.
fn played_part(came: Result<u64, PartFault>) -> Outcome
    ensures { result ≡ part_outcome_of came }
{
    match came {
        Ok(count) => Outcome::Played(count),
        Err(fault) => fault.into(),
    }
}

// The outcome of a command that played between neighbours.
fn played_between(came: Result<u64, BetweenFault>) -> Outcome
    ensures { result ≡ between_outcome_of came }
{
    match came {
        Ok(count) => Outcome::Played(count),
        Err(fault) => fault.into(),
    }
}

// The outcome of a command that played between neighbours with loudspeakers.
fn spoken_between(came: Result<PlayedSpeakers, BetweenFault>) -> Outcome
    ensures { result ≡ spoken_between_outcome_of came }
{
    match came {
        Ok(played) => Outcome::Spoken(played),
        Err(fault) => fault.into(),
    }
}

// The outcome of a command that played with loudspeakers.
fn spoken(came: Result<PlayedSpeakers, PartFault>) -> Outcome
    ensures { result ≡ spoken_outcome_of came }
{
    match came {
        Ok(played) => Outcome::Spoken(played),
        Err(fault) => fault.into(),
    }
}

// The outcome of a command that converted with loudspeakers.
fn converted_speakers(came: Result<u64, SpeakersFault>) -> Outcome
    ensures { result ≡ speakers_outcome_of came }
{
    match came {
        Ok(dropped) => Outcome::Converted(dropped),
        Err(fault) => fault.into(),
    }
}

// The outcome of a command that converted.
fn converted(came: Result<u64, CommandFault>) -> Outcome
    ensures { result ≡ outcome_of outcomes.Converted came }
{
    match came {
        Ok(dropped) => Outcome::Converted(dropped),
        Err(fault) => fault.into(),
    }
}

// The outcome of a command that converted DoP samples. Of their recording nothing is dropped.
fn converted_dop(came: Result<(), DopConvertFault>) -> Outcome
    ensures { result ≡ dop_outcome_of came }
{
    match came {
        Ok(()) => Outcome::Converted(0),
        Err(fault) => fault.into(),
    }
}

// The outcome of a command that cut.
fn edited(came: Result<u128, CommandFault>) -> Outcome
    ensures { result ≡ outcome_of outcomes.Edited came }
{
    match came {
        Ok(total) => Outcome::Edited(total),
        Err(fault) => fault.into(),
    }
}

// The outcome of a command that judged.
fn judged(came: Result<Verdict, CommandFault>) -> Outcome
    ensures { result ≡ outcome_of verdict_of came }
{
    match came {
        Ok(Verdict::Accepted { total }) => Outcome::Accepted(total),
        Ok(Verdict::Rejected(reason)) => Outcome::Rejected(reason),
        Err(fault) => fault.into(),
    }
}

// The outcome of a null test.
fn tested(came: Result<Tested, TestFault>) -> Outcome
    ensures { result ≡ tested_outcome came }
{
    match came {
        Ok(tested) => Outcome::NullTested(tested),
        Err(fault) => fault.into(),
    }
}

// The outcome of a command that reported what a file holds.
fn reported(came: Result<Reported, CommandFault>) -> Outcome
    ensures { result ≡ outcome_of outcomes.Info came }
{
    match came {
        Ok(reported) => Outcome::Info(reported),
        Err(fault) => fault.into(),
    }
}

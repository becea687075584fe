//! The texts of faults and of reasons against a master, as they are printed.

ghost use Rattle.std.specs.Prelude.{◌≡◌, ◌++◌, OnOk, string_bytes};
ghost use Rattle.command_core.specs.Texts.{cut_text, entry_text, fault_text, neighbour_text, project_text, reason_text, span_text, stream_text};
ghost use Rattle.project_core.specs.Keys.{key_name};

use crate::file_texts::push_read_fault;
use archive_core::{CutFault, Fault, Reason, StreamFault};
use cert_core::CertReason;
use project_core::{Key, ProjectFault};
use std::alloc::AllocError;
use std::fmt::Write;
use transfer_commands::{CommandFault, NeighbourFault};
use transfer_core::SpanFault;

/// Appends the text of a fault.
#[tactic(auto, unfolding(crate::specs::Texts::fault_text))]
pub(crate) fn push_fault(text: &mut String, fault: Fault) -> Result<(), AllocError>
    ensures { OnOk result (string_bytes text.new ≡ string_bytes text.old ++ fault_text fault) }
{
    match fault {
        Fault::Project(fault) => {
            text.push_str("Project ")?;
            push_project_fault(text, fault)
        }
        Fault::NoDecimation => text.push_str("NoDecimation"),
        Fault::NoSplice => text.push_str("NoSplice"),
        Fault::FileUnread(fault) => {
            text.push_str("FileUnread ")?;
            push_read_fault(text, fault)
        }
        Fault::FileRefused(_) => text.push_str("FileRefused"),
        Fault::Cut(fault) => push_cut_fault(text, fault),
        Fault::Mix(fault) => {
            text.push_str("Mix ")?;
            push_project_fault(text, fault)
        }
        Fault::ClipOutside(clip) => write!(text, "ClipOutside {clip}"),
        Fault::Stream(fault) => text.push_str(name_of_stream(fault)),
        Fault::NotWholeBytes => text.push_str("NotWholeBytes"),
        Fault::Memory => text.push_str("Memory"),
    }
}

/// Appends the text of a reason.
#[tactic(auto, unfolding(crate::specs::Texts::reason_text))]
pub(crate) fn push_reason(text: &mut String, reason: Reason) -> Result<(), AllocError>
    ensures { OnOk result (string_bytes text.new ≡ string_bytes text.old ++ reason_text reason) }
{
    match reason {
        Reason::MasterUnread(_) => text.push_str("MasterUnread"),
        Reason::MasterShape { .. } => text.push_str("MasterShape"),
        Reason::MasterLength { .. } => text.push_str("MasterLength"),
        Reason::MasterMarks => text.push_str("MasterMarks"),
        Reason::CuedBit(channel, place) => write!(text, "CuedBit {channel} {place}"),
        Reason::CertHead(reason) => {
            text.push_str("CertHead ")?;
            push_entry_reason(text, reason)
        }
        Reason::Cert(entry, reason) => {
            write!(text, "Cert {entry} ")?;
            push_entry_reason(text, reason)
        }
        Reason::CertExtra => text.push_str("CertExtra"),
    }
}

/// The text of what is wrong with a part.
#[tactic(auto, unfolding(crate::specs::Texts::span_text))]
pub(crate) fn name_of_span(fault: SpanFault) -> &'static str
    ensures { result.now ≡ span_text fault }
{
    match fault {
        SpanFault::NoMark => "NoMark",
        SpanFault::PartOutside => "PartOutside",
        SpanFault::PartReversed => "PartReversed",
    }
}

// The text of what is wrong with a stream.
#[tactic(auto, unfolding(crate::specs::Texts::stream_text))]
fn name_of_stream(fault: StreamFault) -> &'static str
    ensures { result.now ≡ stream_text fault }
{
    match fault {
        StreamFault::FileRefused => "FileRefused",
        StreamFault::RateNotDivided => "RateNotDivided",
        StreamFault::TooLarge => "TooLarge",
        StreamFault::ReadFailed => "ReadFailed",
        StreamFault::WriteFailed => "WriteFailed",
        StreamFault::TurnLimit => "TurnLimit",
        StreamFault::Memory => "Memory",
    }
}

/// Appends the text of why a file is no neighbour of another.
#[tactic(auto, unfolding(crate::specs::Texts::neighbour_text))]
pub(crate) fn push_neighbour_fault(
    text: &mut String,
    fault: NeighbourFault,
) -> Result<(), AllocError>
    ensures { OnOk result (string_bytes text.new ≡ string_bytes text.old ++ neighbour_text fault) }
{
    match fault {
        NeighbourFault::Command(CommandFault::Call(fault)) => push_fault(text, fault),
        NeighbourFault::Command(CommandFault::ReadFailed) => text.push_str("ReadFailed"),
        NeighbourFault::Command(CommandFault::WriteFailed) => text.push_str("WriteFailed"),
        NeighbourFault::OtherRate => text.push_str("OtherRate"),
        NeighbourFault::OtherChannels => text.push_str("OtherChannels"),
        NeighbourFault::NotWholeBytes => text.push_str("NotWholeBytes"),
    }
}

// Appends the text of what is wrong with a project text or a mix text.
#[tactic(auto, unfolding(crate::specs::Texts::project_text))]
fn push_project_fault(text: &mut String, fault: ProjectFault) -> Result<(), AllocError>
    ensures { OnOk result (string_bytes text.new ≡ string_bytes text.old ++ project_text fault) }
{
    match fault {
        ProjectFault::NotToml => text.push_str("NotToml"),
        ProjectFault::UnknownKey(_) => text.push_str("UnknownKey"),
        ProjectFault::MissingKey(key, _) => push_key(text, "MissingKey ", key),
        ProjectFault::WrongKind(key, _) => push_key(text, "WrongKind ", key),
        ProjectFault::OutOfLimit(key, _) => push_key(text, "OutOfLimit ", key),
        ProjectFault::NoTake { number, .. } => write!(text, "NoTake {number}"),
        ProjectFault::ShortCue { cue, .. } => write!(text, "ShortCue {cue}"),
        ProjectFault::LastBridge { .. } => text.push_str("LastBridge"),
        ProjectFault::Memory => text.push_str("Memory"),
    }
}

// Appends a name and a key.
fn push_key(text: &mut String, name: &str, key: Key) -> Result<(), AllocError>
    ensures { OnOk result (string_bytes text.new ≡ string_bytes text.old ++ (name.now ++ key_name key)) }
{
    text.push_str(name)?;
    text.push_str(key.name())
}

// Appends the text of what is wrong with a cut.
#[tactic(auto, unfolding(crate::specs::Texts::cut_text))]
fn push_cut_fault(text: &mut String, fault: CutFault) -> Result<(), AllocError>
    ensures { OnOk result (string_bytes text.new ≡ string_bytes text.old ++ cut_text fault) }
{
    match fault {
        CutFault::TakeNumber => text.push_str("TakeNumber"),
        CutFault::TakeUnread(take, fault) => {
            write!(text, "TakeUnread {take} ")?;
            push_read_fault(text, fault)
        }
        CutFault::TakeMismatch(take) => write!(text, "TakeMismatch {take}"),
        CutFault::CueOutside(cue) => write!(text, "CueOutside {cue}"),
        CutFault::MasterTooLong => text.push_str("MasterTooLong"),
        CutFault::NotWholeBytes => text.push_str("NotWholeBytes"),
        CutFault::NoRoomBefore(cue) => write!(text, "NoRoomBefore {cue}"),
        CutFault::NoRoomAfter(cue) => write!(text, "NoRoomAfter {cue}"),
        CutFault::Memory => text.push_str("Memory"),
    }
}

// Appends the text of what is wrong with an entry of a certificate.
#[tactic(auto, unfolding(crate::specs::Texts::entry_text))]
fn push_entry_reason(text: &mut String, reason: CertReason) -> Result<(), AllocError>
    ensures { OnOk result (string_bytes text.new ≡ string_bytes text.old ++ entry_text reason) }
{
    match reason {
        CertReason::Cut => text.push_str("Cut"),
        CertReason::Head => text.push_str("Head"),
        CertReason::Length => text.push_str("Length"),
        CertReason::Bound => text.push_str("Bound"),
        CertReason::Row(level) => write!(text, "Row {level}"),
        CertReason::Start => text.push_str("Start"),
        CertReason::Step(level, state) => write!(text, "Step {level} {state}"),
        CertReason::End(state) => write!(text, "End {state}"),
        CertReason::Cost => text.push_str("Cost"),
        CertReason::Extra => text.push_str("Extra"),
    }
}

//! The texts of the faults for which a file is no recording, as they are printed.

ghost use Rattle.std.specs.Prelude.{◌≡◌, ◌++◌, OnOk, string_bytes};
ghost use Rattle.command_core.specs.Texts.{chunk_text, dsdiff_text, dsf_text, read_text};
ghost use Rattle.form_core.specs.Infos.{id_text};

use crate::summing::push_byte;
use archive_core::ReadFault;
use chunk_core::ChunkFault;
use dsdiff_core::DsdiffFault;
use dsf_core::DsfFault;
use std::alloc::AllocError;
use std::fmt::Write;

/// Appends the text of what is wrong with a file.
#[tactic(auto, unfolding(crate::specs::Texts::read_text))]
pub(crate) fn push_read_fault(text: &mut String, fault: ReadFault) -> Result<(), AllocError>
    ensures { OnOk result (string_bytes text.new ≡ string_bytes text.old ++ read_text fault) }
{
    match fault {
        ReadFault::UnknownForm => text.push_str("UnknownForm"),
        ReadFault::Dsdiff(fault) => {
            text.push_str("Dsdiff ")?;
            push_dsdiff_fault(text, fault)
        }
        ReadFault::Dsf(fault) => {
            text.push_str("Dsf ")?;
            text.push_str(name_of_dsf(fault))
        }
        ReadFault::Memory => text.push_str("Memory"),
    }
}

// Appends the text of what is wrong with a DSDIFF file.
#[tactic(auto, unfolding(crate::specs::Texts::dsdiff_text))]
fn push_dsdiff_fault(text: &mut String, fault: DsdiffFault) -> Result<(), AllocError>
    ensures { OnOk result (string_bytes text.new ≡ string_bytes text.old ++ dsdiff_text fault) }
{
    match fault {
        DsdiffFault::NotDsdiff => text.push_str("NotDsdiff"),
        DsdiffFault::FormCut { .. } => text.push_str("FormCut"),
        DsdiffFault::Chunk(fault) => {
            text.push_str("Chunk ")?;
            push_chunk_fault(text, fault)
        }
        DsdiffFault::NoVersion(_) => text.push_str("NoVersion"),
        DsdiffFault::BadVersion(_) => text.push_str("BadVersion"),
        DsdiffFault::Twice(id) => {
            text.push_str("Twice")?;
            push_id(text, id)
        }
        DsdiffFault::NoProperty => text.push_str("NoProperty"),
        DsdiffFault::NoRate => text.push_str("NoRate"),
        DsdiffFault::NoChannels => text.push_str("NoChannels"),
        DsdiffFault::NoCompression => text.push_str("NoCompression"),
        DsdiffFault::Compressed(_) => text.push_str("Compressed"),
        DsdiffFault::BadRate(_) => text.push_str("BadRate"),
        DsdiffFault::BadChannelNumber(_) => text.push_str("BadChannelNumber"),
        DsdiffFault::NoSound => text.push_str("NoSound"),
        DsdiffFault::SoundBeforeProperty => text.push_str("SoundBeforeProperty"),
        DsdiffFault::PartFrame { .. } => text.push_str("PartFrame"),
        DsdiffFault::TooLong { .. } => text.push_str("TooLong"),
        DsdiffFault::BadMark => text.push_str("BadMark"),
        DsdiffFault::Memory => text.push_str("Memory"),
    }
}

// Appends the text of what is wrong with a list of chunks.
#[tactic(auto, unfolding(crate::specs::Texts::chunk_text))]
fn push_chunk_fault(text: &mut String, fault: ChunkFault) -> Result<(), AllocError>
    ensures { OnOk result (string_bytes text.new ≡ string_bytes text.old ++ chunk_text fault) }
{
    match fault {
        ChunkFault::HeadCut(place) => write!(text, "HeadCut {place}"),
        ChunkFault::DataCut { place, .. } => write!(text, "DataCut {place}"),
        ChunkFault::Memory => text.push_str("Memory"),
    }
}

// Appends a space and the ID of a chunk in hexadecimal digits.
fn push_id(text: &mut String, id: [u8; 4]) -> Result<(), AllocError>
    ensures { OnOk result (string_bytes text.new ≡ string_bytes text.old ++ id_text id) }
{
    text.push_str(" ")?;
    for byte in &id {
        push_byte(text, *byte)?;
    }
    Ok(())
}

// The text of what is wrong with a DSF file.
#[tactic(auto, unfolding(crate::specs::Texts::dsf_text))]
fn name_of_dsf(fault: DsfFault) -> &'static str
    ensures { result.now ≡ dsf_text fault }
{
    match fault {
        DsfFault::NotDsf => "NotDsf",
        DsfFault::HeadCut(_) => "HeadCut",
        DsfFault::BadFormat(_) => "BadFormat",
        DsfFault::BadVersion(_) => "BadVersion",
        DsfFault::BadChannelNumber(_) => "BadChannelNumber",
        DsfFault::BadRate(_) => "BadRate",
        DsfFault::BadBits(_) => "BadBits",
        DsfFault::BadBlock(_) => "BadBlock",
        DsfFault::TooLong(_) => "TooLong",
        DsfFault::DataCut(_) => "DataCut",
        DsfFault::BadPointer { .. } => "BadPointer",
        DsfFault::Memory => "Memory",
    }
}

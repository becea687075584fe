//! The texts of the faults for which a file isn't one of DoP samples, as they are printed.

ghost use Rattle.std.specs.Prelude.{◌≡◌, ◌++◌, OnOk, string_bytes};
ghost use Rattle.command_core.specs.Texts.{dop_text};

use dop_core::DopFault;
use std::alloc::AllocError;
use std::fmt::Write;

/// Appends the text of what is wrong with a file of DoP samples.
#[tactic(auto, unfolding(crate::specs::Texts::dop_text))]
pub(crate) fn push_dop_fault(text: &mut String, fault: DopFault) -> Result<(), AllocError>
    ensures { OnOk result (string_bytes text.new ≡ string_bytes text.old ++ dop_text fault) }
{
    match fault {
        DopFault::NotWave => text.push_str("NotWave"),
        DopFault::NoData => text.push_str("NoData"),
        DopFault::NoFormat => text.push_str("NoFormat"),
        DopFault::NotPcm24 => text.push_str("NotPcm24"),
        DopFault::BadChannelNumber(_) => text.push_str("BadChannelNumber"),
        DopFault::BadRate(_) => text.push_str("BadRate"),
        DopFault::NoSize(_) => text.push_str("NoSize"),
        DopFault::DataCut { .. } => text.push_str("DataCut"),
        DopFault::PartFrame => text.push_str("PartFrame"),
        DopFault::BadMarker(frame) => write!(text, "BadMarker {frame}"),
        DopFault::CountCut => text.push_str("CountCut"),
        DopFault::BadCount(_) => text.push_str("BadCount"),
        DopFault::Memory => text.push_str("Memory"),
    }
}

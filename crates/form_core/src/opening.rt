//! The recording that a file holds, whatever its form.

ghost use Rattle.std.specs.Prelude.{◌≡◌, IfOk, Ok};
ghost use Rattle.dsd_bits.specs.Contents.{Content};
ghost use Rattle.dsf_core.specs.Reading.{recording_of};
ghost use Rattle.form_core.specs.declared.form.Form.{Form};
ghost use Rattle.form_core.specs.Forms.{HoldsAs};
ghost use Rattle.form_core.specs.Opening as openings;
ghost use Rattle.form_core.specs.Opening.{IsOpened, Opens, from_dsf, opened_of};

use crate::fault::ReadFault;
use crate::form::{Form, form_in};
use dsd_bits::{Interleaving, Recording};
use dsdiff_core::DsdiffFault;
use std::alloc::Global;

/// What was read of a file: its form and its recording.
#[derive(Drop)]
pub struct Opened {
    /// The file's form.
    pub form: Form,
    /// The recording that it holds.
    pub recording: Recording,
}

/// The form of a file and the recording that it holds. The file is a DSDIFF 1.5 or DSF 1.01 file of 1 to 6 channels.
///
/// Refusals: `UnknownForm` for a file that is neither a DSDIFF nor a DSF file, `Dsdiff` or `Dsf` for one that is but
/// does not hold a recording that can be read; `Memory` at any point.
pub fn read_any(alloc: Global, file: &[u8]) -> Result<Opened, ReadFault>
    // What is read is what the file holds.
    ensures found { IfOk result (IsOpened file.now) }
    // What a file holds is read, unless memory runs out.
    ensures only { (form : Form) (r : Content) → HoldsAs file.now form r
        → Opens result (Ok (record { form = form; recording = r })) }
    // Which fault it is.
    ensures exact { Opens result (opened_of file.now) }
{
    open_in_order(alloc, file)
}

// The same, in the order of reading alone.
#[tactic(auto, unfolding(crate::specs::Opening::opened_of))]
fn open_in_order(alloc: Global, file: &[u8]) -> Result<Opened, ReadFault>
    ensures { Opens result (opened_of file.now) }
{
    let fault = match dsdiff_core::read(alloc, file) {
        Ok(recording) => {
            return Ok(Opened {
                form: Form::Dsdiff,
                recording,
            });
        }
        Err(fault) => fault,
    };
    if is_other(&fault) {
        return read_dsf(alloc, file);
    }
    Err(ReadFault::from(fault))
}

// Whether a refusal says that the file is not a DSDIFF file at all.
fn is_other(fault: &DsdiffFault) -> bool
    ensures { result ≡ openings.is_other fault.now }
{
    match fault {
        DsdiffFault::NotDsdiff => true,
        _ => false,
    }
}

// The recording that a DSF file holds, and which of the two forms of DSF the file has.
fn read_dsf(alloc: Global, file: &[u8]) -> Result<Opened, ReadFault>
    ensures { Opens result (from_dsf (recording_of file.now)) }
{
    let (recording, order) = dsf_core::read(alloc, file)?;
    Ok(Opened {
        form: form_in(Interleaving::Blocks(order)),
        recording,
    })
}

//! Why a file can't be read.

ghost use Rattle.std.specs.Prelude.{◌≡◌};
ghost use Rattle.form_core.specs.Faults.{dsdiff_fault, dsf_fault};

use dsdiff_core::DsdiffFault;
use dsf_core::DsfFault;
use thiserror::Error;

/// Why a file can't be read as a recording.
#[derive(Clone, Copy, Debug, PartialEq, Eq, Error)]
pub enum ReadFault {
    /// The file is neither a DSDIFF file nor a DSF file.
    #[error("UnknownForm")]
    UnknownForm,
    /// The file is a DSDIFF file, but does not hold a recording that can be read.
    #[error("Dsdiff {0}")]
    Dsdiff(DsdiffFault),
    /// The file is a DSF file, but does not hold a recording that can be read.
    #[error("Dsf {0}")]
    Dsf(DsfFault),
    /// Out of memory.
    #[error("Memory")]
    Memory,
}

impl From<DsdiffFault> for ReadFault {
    ghost from_gives = { λ f e. e ≡ dsdiff_fault f };

    fn from(fault: DsdiffFault) -> ReadFault {
        match fault {
            DsdiffFault::NotDsdiff => ReadFault::UnknownForm,
            DsdiffFault::Memory => ReadFault::Memory,
            fault => ReadFault::Dsdiff(fault),
        }
    }
}

impl From<DsfFault> for ReadFault {
    ghost from_gives = { λ f e. e ≡ dsf_fault f };

    fn from(fault: DsfFault) -> ReadFault {
        match fault {
            DsfFault::NotDsf => ReadFault::UnknownForm,
            DsfFault::Memory => ReadFault::Memory,
            fault => ReadFault::Dsf(fault),
        }
    }
}

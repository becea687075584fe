//! Why a call is refused.

ghost use Rattle.std.specs.Prelude.{◌≡◌};
ghost use Rattle.request_core.specs.Faults.{fault_of_cut, fault_of_file, fault_of_project, fault_of_stream, fault_of_unread, fault_of_wave, fault_of_writing};
ghost use Rattle.request_core.specs.declared.fault.Fault.TheVariants as faults;

use cut_core::CutFault;
use form_core::{ReadFault, WriteFault};
use project_core::ProjectFault;
use sound_core::{StreamFault, Unread};
use std::alloc::AllocError;
use thiserror::Error;
use wave_core::WaveFault;

/// Why a call is refused: the first fault, in the order that the call states.
///
/// No fault has two spellings. Out of memory is always `Memory`. A DSDIFF file whose channels would end inside a byte
/// is `NotWholeBytes`, whether it is cut or converted. Neither is found inside another variant. A file that holds no
/// recording is `FileRefused` if it was to be played from a reader, and `FileUnread` otherwise. A rate that isn't
/// divided, a WAVE file that would be too large, and a read or write that failed are `Stream`, even if a file is played
/// in memory or a certificate is read.
#[derive(Clone, Copy, Debug, PartialEq, Eq, Error)]
pub enum Fault {
    /// The project text can't be read.
    #[error("Project {0}")]
    Project(ProjectFault),
    /// The project text has no decimator.
    #[error("NoDecimation")]
    NoDecimation,
    /// The project text has no splice.
    #[error("NoSplice")]
    NoSplice,
    /// The file can't be read as a recording.
    #[error("FileUnread {0}")]
    FileUnread(ReadFault),
    /// The file that is played from a reader can't be read as a recording. Its text is `FileRefused` for each fault.
    #[error("FileRefused")]
    FileRefused(ReadFault),
    /// The splice can't be cut from the files of its takes. Its text is that of this fault.
    #[error("{0}")]
    Cut(CutFault),
    /// The mix text can't be read, or a clip has gains for another number of channels than its take has.
    #[error("Mix {0}")]
    Mix(ProjectFault),
    /// The clip of this number ends after the end of its take.
    #[error("ClipOutside {0}")]
    ClipOutside(usize),
    /// A file is not read, played or written to its end. Its text is that of this fault.
    #[error("{0}")]
    Stream(StreamFault),
    /// A DSDIFF file holds whole bytes of each channel, but the channels end inside a byte.
    #[error("NotWholeBytes")]
    NotWholeBytes,
    /// Out of memory.
    #[error("Memory")]
    Memory,
}

impl From<AllocError> for Fault {
    ghost from_gives = { λ _ e. e ≡ faults.Memory };

    fn from(_e: AllocError) -> Fault {
        Fault::Memory
    }
}

impl From<ProjectFault> for Fault {
    ghost from_gives = { λ f e. e ≡ fault_of_project f };

    fn from(fault: ProjectFault) -> Fault {
        match fault {
            ProjectFault::Memory => Fault::Memory,
            fault => Fault::Project(fault),
        }
    }
}

impl From<ReadFault> for Fault {
    ghost from_gives = { λ f e. e ≡ fault_of_file f };

    fn from(fault: ReadFault) -> Fault {
        match fault {
            ReadFault::Memory => Fault::Memory,
            fault => Fault::FileUnread(fault),
        }
    }
}

impl From<CutFault> for Fault {
    ghost from_gives = { λ f e. e ≡ fault_of_cut f };

    fn from(fault: CutFault) -> Fault {
        match fault {
            CutFault::NotWholeBytes => Fault::NotWholeBytes,
            CutFault::Memory => Fault::Memory,
            fault => Fault::Cut(fault),
        }
    }
}

impl From<WaveFault> for Fault {
    ghost from_gives = { λ f e. e ≡ fault_of_wave f };

    fn from(fault: WaveFault) -> Fault {
        match fault {
            WaveFault::Memory => Fault::Memory,
            WaveFault::TooLarge => Fault::Stream(StreamFault::TooLarge),
        }
    }
}

impl From<WriteFault> for Fault {
    ghost from_gives = { λ f e. e ≡ fault_of_writing f };

    fn from(fault: WriteFault) -> Fault {
        match fault {
            WriteFault::Memory => Fault::Memory,
            WriteFault::NotWholeBytes => Fault::NotWholeBytes,
        }
    }
}

impl From<StreamFault> for Fault {
    ghost from_gives = { λ f e. e ≡ fault_of_stream f };

    fn from(fault: StreamFault) -> Fault {
        match fault {
            StreamFault::Memory => Fault::Memory,
            fault => Fault::Stream(fault),
        }
    }
}

impl From<Unread> for Fault {
    ghost from_gives = { λ u e. e ≡ fault_of_unread u };

    fn from(unread: Unread) -> Fault {
        match unread {
            Unread::Refused(ReadFault::Memory) => Fault::Memory,
            Unread::Refused(fault) => Fault::FileRefused(fault),
            Unread::Stream(fault) => Fault::from(fault),
        }
    }
}

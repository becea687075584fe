//! A splice with its takes.

ghost use Rattle.std.specs.Prelude.{◌≡◌, ◌+◌, ◌-◌, ◌^◌, ◌<◌, ◌≤◌, All, IfOk, List, length, map, slice_range};
ghost use Rattle.dsd_bits.specs.Contents.{Content, mark_content};
ghost use Rattle.splice_core.specs.Cues.{cue_content};
ghost use Rattle.splice_core.specs.Splices.{splice_content};
ghost use Rattle.cut_core.specs.Bridges as places;
ghost use Rattle.cut_core.specs.Bridges.{IsPlace};
ghost use Rattle.cut_core.specs.Cuts as cuts;
ghost use Rattle.cut_core.specs.Cuts.{IsCueOf, cue_at, cue_bits, cue_length, master_length, span};
ghost use Rattle.cut_core.specs.Keeping.{CanCut};
ghost use Rattle.cut_core.specs.Excerpts.{AreOfTakes};
ghost use Rattle.cut_core.specs.Opening.{GivesCut, GivesCutOf, OpensCut, cut_of, file_bytes};
ghost use Rattle.cut_core.specs.Titles.{titles_of};

use crate::bridges::{BridgePlace, bridge_places};
use crate::cues;
use crate::excerpts::{Excerpts, excerpt_start};
use crate::fault::CutFault;
use crate::fitting::{self, fits};
use crate::takes::excerpts_of_files;
use crate::titles::title_marks;
use cost_core::{Seam, Window, fades_join};
use dsd_bits::{Bits, Mark, Recording};
use form_core::Form;
use splice_core::{Cue, Splice};
use std::alloc::{AllocError, Global};
use std::marker::Model;

/// A splice with what it reads of its takes, from which a master can be cut. The takes have the same sample rate and
/// number of channels, each cue ends within its take, the master has at most `2^36` bits a channel, and each bridge has
/// room in both its takes. Of the takes it holds the bits of the cues and those that the bridges next to them read.
#[derive(Drop)]
pub struct Cut {
    splice: Splice,
    takes: Vec<Excerpts>,
}

/// The bits of a cue in a channel, and where they are.
#[derive(Clone, Copy)]
pub struct CuedBits<'a> {
    /// The bits that were read for the cue, its own and some around it.
    pub bits: &'a Bits,
    /// The place of the cue's first bit in them.
    pub start: usize,
    /// The place after its last.
    pub stop: usize,
}

impl Model for Cut {
    ghost use Rattle.cut_core.specs.Cuts.{CutContent};
    ghost use Rattle.cut_core.specs.View.{KeepsCut, cut_content};

    ghost Value = { CutContent };

    ghost view = { cut_content };

    ghost invariant = { KeepsCut };
}

impl Cut {
    /// A splice with its takes, read from their files, DSDIFF or DSF, in the order of their numbers. `form` is the form
    /// of the file to be cut, if there is one.
    ///
    /// Refusals, in this order: `TakeNumber` if there are not as many files as takes, `TakeUnread` for the first file
    /// that can't be read, `TakeMismatch` for the first take that isn't like take 0, `CueOutside` for the first cue
    /// that stops after the end of its take, `MasterTooLong` if the master would have more than `2^36` bits a channel,
    /// `NotWholeBytes` if the form is DSDIFF and the master's channels would end inside a byte, then by rising cue
    /// `NoRoomBefore` and `NoRoomAfter`. Whenever memory runs out it is `Memory`.
    #[tactic(auto, unfolding(crate::specs::Opening::cut_of))]
    pub fn open(
        alloc: Global,
        splice: Splice,
        files: &[Vec<u8>],
        form: Option<Form>,
    ) -> Result<Cut, CutFault>
        // What is returned is the cut of takes that the files hold, and can be cut.
        ensures found { IfOk result (OpensCut (splice_content splice) (file_bytes files.now) form) }
        // The result or refusal is that of reading in order, unless memory runs out.
        ensures exact { GivesCut result (cut_of (splice_content splice) (file_bytes files.now) form) }
    {
        let takes = excerpts_of_files(alloc, &splice, files)?;
        Cut::of(splice, takes, form)
    }

    /// A splice with what it reads of its takes, in the order of their numbers.
    ///
    /// Refusals: those of [`Cut::open`] from `TakeMismatch` on, in their order.
    #[tactic(auto, unfolding(crate::specs::Opening::cut_from))]
    pub fn of(splice: Splice, takes: Vec<Excerpts>, form: Option<Form>) -> Result<Cut, CutFault>
        requires { AreOfTakes (splice_content splice) takes.items }
        // Whichever takes it was read from, the result or refusal is that of reading them in order.
        ensures exact { GivesCutOf form (splice_content splice) takes.items result }
    {
        fits(&splice, &takes, form)?;
        Ok(Cut { splice, takes })
    }

    /// What holds of every cut, for those who build on it. It does nothing.
    pub fn can_cut(&self)
        ensures { CanCut self.now }
    {
        fades_join();
        let _ = self.takes.len();
    }

    /// How many cues there are.
    pub fn cue_number(&self) -> usize
        ensures value { result ≡ length self.now.splice.cues }
        ensures some { 1 ≤ result }
        ensures few { result ≤ 256 }
    {
        cues::cue_number(&self.splice)
    }

    /// Cue `i`.
    pub fn cue(&self, number: usize) -> &Cue
        requires { number < length self.now.splice.cues }
        ensures value { cue_content result.now ≡ cue_at self.now number }
        ensures fits { IsCueOf self.now.splice (cue_content result.now) }
    {
        cues::cue_at(&self.splice, number)
    }

    /// How many bits of each channel of the master cue `i` and the bridge after it take.
    pub fn span(&self, number: usize) -> usize
        requires { number < length self.now.splice.cues }
        ensures value { result ≡ span (cue_at self.now number) }
        ensures bound { result ≤ 2 ^ 36 + 4096 }
    {
        cues::span_at(&self.splice, number)
    }

    /// How many weights there are: 2 to 12.
    pub fn weight_number(&self) -> usize
        ensures value { result ≡ length self.now.splice.weights }
        ensures some { 2 ≤ result }
        ensures few { result ≤ 12 }
    {
        self.splice.weights.len()
    }

    /// How many bits each channel of the master has.
    pub fn length(&self) -> usize
        ensures value { result ≡ master_length self.now.splice.cues }
        ensures in_limit { result ≤ 2 ^ 36 }
    {
        fitting::master_length(&self.splice)
    }

    /// The first take without its bits. The master has its sample rate, channel IDs and layout.
    pub fn first(&self) -> &Recording
        ensures { result.now ≡ self.now.first }
    {
        &self.takes[0].recording
    }

    /// How many channels the takes have, and so the master has: 1 to 6.
    pub fn channel_number(&self) -> usize
        ensures value { result ≡ cuts.take_channels self.now }
        ensures few { result ≤ 6 }
    {
        self.first().channels().len()
    }

    /// Where the bits of a cue in a channel are.
    pub fn cued(&self, channel: usize, cue: usize) -> CuedBits<'_>
        requires channel { channel < cuts.take_channels self.now }
        requires cue { cue < length self.now.splice.cues }
        ensures bits { slice_range result.bits.now result.start result.stop ≡ cue_bits self.now channel cue }
        ensures in_order { result.start ≤ result.stop }
        ensures inside { result.stop ≤ length result.bits.now }
        ensures long { result.stop - result.start ≡ cue_length self.now cue }
    {
        let from = excerpt_start(&self.splice, cue);
        let here = cues::cue_at(&self.splice, cue);
        let stretch = cues::stretch(&self.splice, &self.takes, channel, cue);
        CuedBits {
            bits: stretch,
            start: here.start - from,
            stop: here.stop - from,
        }
    }

    /// The places of all bridges, by rising cue and then by rising channel. A plain cut is not a bridge. Err is out of
    /// memory.
    pub fn bridges(&self, alloc: Global) -> Result<Vec<BridgePlace>, AllocError>
        ensures places { IfOk result (λ made. made.items ≡ places.bridges self.now) }
        ensures each { IfOk result (λ made. All (IsPlace self.now) made.items) }
        ensures few { IfOk result (λ made. length made.items ≤ 1536) }
    {
        bridge_places(alloc, self)
    }

    /// The window of the bridge at a place. Err is out of memory.
    pub fn window(&self, alloc: Global, place: BridgePlace) -> Result<Window, AllocError>
        requires { IsPlace self.now place }
        ensures { IfOk result (λ window. window ≡ cuts.window self.now place.channel place.cue) }
    {
        let BridgePlace { cue, channel } = place;
        let own = cues::stretch(&self.splice, &self.takes, channel, cue);
        let stop = cues::cue_at(&self.splice, cue).stop - excerpt_start(&self.splice, cue);
        let next = cues::stretch(&self.splice, &self.takes, channel, cue + 1);
        let start = cues::cue_at(&self.splice, cue + 1).start
            - excerpt_start(&self.splice, cue + 1);
        let seam = Seam {
            own,
            stop,
            next,
            start,
        };
        Window::between(alloc, &self.splice, cue, seam)
    }

    /// The marks of the titles: for each cue with a title, one at its first bit in the master. Err is out of memory.
    pub fn titles(&self, alloc: Global) -> Result<Vec<Mark>, AllocError>
        ensures { IfOk result (λ made. map mark_content made.items ≡ titles_of self.now) }
    {
        title_marks(alloc, &self.splice, self.first().rate())
    }
}

// The texts of frames by their addresses, so that most are written once.
ghost use Rattle.std.specs.Prelude.{◌≡◌, ◌++◌, IfOk, OnOk};
ghost use Rattle.sampled_profile.specs.Tables.{shown_text};
ghost use Rattle.sampled_profile.specs.Texts.{frame_text, frames_text};

use crate::stack_table::SampledStack;
use crate::texts::{put_end, put_frame, put_popped, put_root};
use stack_report::Report;
use stack_snapshot::Origins;
use std::alloc::{AllocError, Global};
use std::marker::Model;

// In how many places texts are kept, each by its address.
const PLACES: u64 = 8192;

/// Where the text of the frame at an address is kept.
#[derive(Clone, Copy)]
pub(crate) struct KeptText {
    address: u64,
    start: usize,
    end: usize,
}

/// The texts of frames by the addresses of their places: the last one for each slot.
///
/// Contracts see the files by which frames are named.
#[derive(Drop)]
pub(crate) struct FrameTexts<'o> {
    origins: &'o Origins,
    places: Vec<Option<KeptText>>,
    // one after another, those that are kept no more among them
    texts: Vec<u8>,
}

impl<'o> Model for FrameTexts<'o> {
    ghost use Rattle.std.specs.Prelude.{All, IfSome, List};
    ghost use Rattle.stack_snapshot.specs.Origins.{OriginValue};
    ghost use Rattle.sampled_profile.specs.Tables.{IsKept};

    ghost Value = { List OriginValue };

    ghost view = { λ t. t.origins.now };

    ghost invariant = { λ t. All (λ place. IfSome place (IsKept t.origins.now t.texts.items))
        t.places.items };
}

impl<'o> FrameTexts<'o> {
    /// No texts yet, of frames in the modules of these files.
    ///
    /// # Errors
    ///
    /// `AllocError` where memory ran out.
    pub(crate) fn new(alloc: Global, origins: &'o Origins) -> Result<FrameTexts<'o>, AllocError>
        ensures { IfOk result (λ texts. texts ≡ origins.now) }
    {
        let mut places = Vec::new(alloc);
        places.resize(PLACES as usize, None)?;
        Ok(FrameTexts {
            origins,
            places,
            texts: Vec::new(alloc),
        })
    }

    /// Keeps the text of an address in a place.
    fn keep(&mut self, place: usize, address: u64, text: &[u8]) -> Result<(), AllocError>
        requires { text.now ≡ frame_text self.old address }
        ensures { self.new ≡ self.old }
    {
        let start = self.texts.len();
        self.texts.extend_from_slice(text)?;
        let end = self.texts.len();
        if place < self.places.len() {
            self.places[place] = Some(KeptText {
                address,
                start,
                end,
            });
        }
        Ok(())
    }

    /// Puts the text of a frame last, and keeps it in a place.
    fn put_new_frame(
        &mut self,
        report: &mut Report,
        place: usize,
        address: u64,
    ) -> Result<(), AllocError>
        ensures text { OnOk result (report.new ≡ report.old ++ frame_text self.old address) }
        ensures files { self.new ≡ self.old }
    {
        let offset = report.bytes().len();
        put_frame(report, self.origins, address)?;
        self.keep(place, address, &report.bytes()[offset..])
    }

    /// Puts the text of a frame last.
    fn put_known_frame(&mut self, report: &mut Report, address: u64) -> Result<(), AllocError>
        ensures text { OnOk result (report.new ≡ report.old ++ frame_text self.old address) }
        ensures files { self.new ≡ self.old }
    {
        let place = (address / 16 % PLACES) as usize;
        match self.places.get(place) {
            Some(Some(kept)) if kept.address == address => {
                report.put_bytes(&self.texts[kept.start..kept.end])
            }
            _ => self.put_new_frame(report, place, address),
        }
    }

    /// Puts the texts of frames last, the outermost first.
    fn put_frames(&mut self, report: &mut Report, addresses: &[u64]) -> Result<(), AllocError>
        ensures text { OnOk result (report.new ≡ report.old ++ frames_text self.old addresses.now) }
        ensures files { self.new ≡ self.old }
    {
        for i in (0..addresses.len()).rev() {
            self.put_known_frame(report, addresses[i])?;
        }
        Ok(())
    }

    /// Puts the text of a stack last.
    ///
    /// # Errors
    ///
    /// `AllocError` where memory ran out.
    #[tactic(auto, unfolding(crate::specs::Texts::stack_text))]
    pub(crate) fn put_stack(
        &mut self,
        report: &mut Report,
        stack: &SampledStack,
    ) -> Result<(), AllocError>
        ensures text { OnOk result
            (report.new ≡ report.old ++ shown_text self.old stack.now) }
        ensures files { self.new ≡ self.old }
    {
        put_root(report, stack.name())?;
        put_end(report, stack.end())?;
        self.put_frames(report, stack.places())?;
        put_popped(report, stack.popped())
    }
}

// The memory of a core file, segment after segment.
ghost use Rattle.std.specs.Prelude.{◌≡◌, ◌<◌, ◌^◌, length};
ghost use Rattle.core_file.specs.ProgramHeaders.{segments_in};
ghost use Rattle.core_file.specs.Left.{segments_left};

use crate::program_header::ProgramHeader;
use memory_image::Records;

/// The segments of memory of a core file that have bytes in it, in the order of its program headers: the address of each
/// and its bytes.
#[derive(Drop)]
pub struct Segments<'a> {
    bytes: &'a [u8],
    headers: Records<'a, ProgramHeader>,
}

impl<'a> Segments<'a> {
    #[tactic(auto, using(crate::proofs::ThreadLemmas::segments_few))]
    pub(crate) fn over(bytes: &'a [u8], headers: Records<'a, ProgramHeader>) -> Segments<'a>
        ensures left { segments_left result ≡ segments_in bytes.now headers.entry }
        ensures few { length (segments_left result) < 2 ^ 64 }
    {
        // A use of the number of headers tells the proof that it is one.
        let _ = headers.len();
        Segments { bytes, headers }
    }
}

impl<'a> Iterator for Segments<'a> {
    ghost use Rattle.std.specs.Iterator.{YieldsFirstBy, item_count};
    ghost use Rattle.memory_image.specs.Regions.{span_of};
    ghost use Rattle.core_file.specs.Left.{segments_left};

    type Item = (u64, &'a [u8]);

    ghost next_gives = { YieldsFirstBy span_of segments_left };

    ghost remaining = { item_count segments_left };

    fn next(&mut self) -> Option<(u64, &'a [u8])> {
        let count = self.headers.len();
        for i in 0..count {
            if let Some(segment) = self.headers.at(i).segment(self.bytes) {
                self.headers = self.headers.after(i + 1);
                return Some(segment);
            }
        }
        self.headers = self.headers.after(count);
        None
    }
}

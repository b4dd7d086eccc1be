// Where the memory of a core file lies, segment after segment.
ghost use Rattle.std.specs.Prelude.{◌≡◌, ◌<◌, ◌^◌, length};
ghost use Rattle.core_file.specs.Fronts.{places_in};
ghost use Rattle.core_file.specs.Left.{places_left};

use crate::program_header::ProgramHeader;
use memory_image::Records;

/// Where a segment of memory of a core file lies.
#[derive(Clone, Copy, Debug, PartialEq, Eq)]
pub struct SegmentPlace {
    /// The address of its first byte.
    pub address: u64,
    /// Where its bytes begin in the file, in bytes.
    pub offset: u64,
    /// How many bytes of it the file has.
    pub size: u64,
}

/// Where the segments of memory of a core file lie that have bytes in it, in the order of its
/// program headers.
#[derive(Drop)]
pub struct Places<'a> {
    headers: Records<'a, ProgramHeader>,
}

impl<'a> Places<'a> {
    #[tactic(auto, using(crate::proofs::ThreadLemmas::places_few))]
    pub(crate) fn over(headers: Records<'a, ProgramHeader>) -> Places<'a>
        ensures left { places_left result ≡ places_in headers.entry }
        ensures few { length (places_left result) < 2 ^ 64 }
    {
        // A use of the number of headers tells the proof that it is one.
        let _ = headers.len();
        Places { headers }
    }
}

impl<'a> Iterator for Places<'a> {
    ghost use Rattle.std.specs.Iterator.{YieldsFirst, item_count};
    ghost use Rattle.core_file.specs.Left.{places_left};

    type Item = SegmentPlace;

    ghost next_gives = { YieldsFirst places_left };

    ghost remaining = { item_count places_left };

    fn next(&mut self) -> Option<SegmentPlace> {
        let count = self.headers.len();
        for i in 0..count {
            if let Some(place) = self.headers.at(i).place() {
                self.headers = self.headers.after(i + 1);
                return Some(place);
            }
        }
        self.headers = self.headers.after(count);
        None
    }
}

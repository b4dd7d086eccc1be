// The records of a file, one after another.
ghost use Rattle.std.specs.Prelude.{◌+◌, ◌<◌, ◌^◌, length};

use crate::errors::PerfError;
use crate::layout::Layout;
use crate::record::{Record, first_record};

/// The records of a perf.data file, in its order. An error is the last.
#[derive(Clone, Copy, Debug)]
pub struct Records<'a> {
    layout: Layout,
    // where the bytes stand in the file
    offset: u64,
    bytes: &'a [u8],
    ghost in_range: { offset + length bytes.now < 2 ^ 64 },
}

impl<'a> Records<'a> {
    ghost use Rattle.std.specs.Prelude.{◌≡◌};
    ghost use Rattle.perf_data.specs.Records.{records_of};
    ghost use Rattle.perf_data.specs.Views.{records_left};

    pub(crate) fn over(layout: Layout, offset: u64, bytes: &'a [u8]) -> Records<'a>
        requires { offset + length bytes.now < 2 ^ 64 }
        ensures { records_left result ≡ records_of layout offset bytes.now }
    {
        Records {
            layout,
            offset,
            bytes,
        }
    }
}

impl<'a> Iterator for Records<'a> {
    ghost use Rattle.std.specs.Iterator.{YieldsFirstBy, item_count};
    ghost use Rattle.perf_data.specs.Views.{told, records_left};

    type Item = Result<Record<'a>, PerfError>;

    ghost next_gives = { YieldsFirstBy told records_left };

    ghost remaining = { item_count records_left };

    #[tactic(auto, using(crate::proofs::RecordLemmas::records_end, crate::proofs::RecordLemmas::records_err))]
    fn next(&mut self) -> Option<Result<Record<'a>, PerfError>> {
        let bytes = self.bytes;
        if bytes.is_empty() {
            return None;
        }
        self.bytes = &[];
        match first_record(&self.layout, self.offset, bytes) {
            Ok((record, size)) => {
                self.bytes = &bytes[size..];
                self.offset += size as u64;
                Some(Ok(record))
            }
            Err(error) => Some(Err(error)),
        }
    }
}

// Records at offsets of some bytes.
ghost use Rattle.std.specs.Prelude.{◌≡◌};
ghost use Rattle.macho_unwind_info.specs.Format.{record_at, records_at};

use memory_image::{Record, Records};

/// The record at an offset, if it fits in the bytes.
pub fn read_at<T: Record>(bytes: &[u8], offset: u64) -> Option<T>
    ensures { result ≡ record_at T.SIZE T.value_of bytes.now offset }
{
    Records::over(bytes, offset, 1)?.get(0)
}

/// So many records from an offset on, if they fit in the bytes.
pub fn read_slice_at<T: Record>(bytes: &[u8], offset: u64, count: usize) -> Option<Records<'_, T>>
    ensures { result ≡ records_at T.SIZE T.value_of bytes.now offset count }
{
    Records::over(bytes, offset, count)
}

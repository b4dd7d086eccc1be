// Bytes of an image that were looked up.
ghost use Rattle.std.specs.Prelude.{◌≡◌, ◌<◌, List, IfSome, length};
ghost use Rattle.memory_image.specs.Image.{Span, IsLaidOut, table_at};
ghost use Rattle.unwinding_frames.specs.Windows.{AreKeptBytes};

use memory_image::MemoryImage;

/// Bytes that were looked up: those from an address to the end of its region.
#[derive(Clone, Copy)]
pub(crate) struct KeptBytes<'a> {
    pub(crate) start: u64,
    pub(crate) bytes: &'a [u8],
}

impl<'a> KeptBytes<'a> {
    /// No bytes.
    pub(crate) fn empty() -> KeptBytes<'a>
        ensures { (image : List Span) → AreKeptBytes image result.start result.bytes.now }
    {
        KeptBytes {
            start: 0,
            bytes: &[],
        }
    }

    /// The bytes from an address on.
    #[cold]
    #[inline(never)]
    pub(crate) fn of(image: &MemoryImage<'a>, address: u64) -> KeptBytes<'a>
        ensures bytes { AreKeptBytes image.now result.start result.bytes.now }
        ensures held { result.bytes.now ≡ table_at image.now address }
    {
        KeptBytes {
            start: address,
            bytes: image.bytes_from(address),
        }
    }

    /// The bytes from an address on, where it is that of one of them.
    pub(crate) fn from(&self, address: u64) -> Option<&'a [u8]>
        ensures { (image : List Span) → IsLaidOut 0 image
            → AreKeptBytes image self.now.start self.now.bytes.now
            → IfSome result
            (λ bytes. (bytes.now ≡ table_at image address) × (0 < length bytes.now)) }
    {
        let offset = address.wrapping_sub(self.start) as usize;
        if offset < self.bytes.len() {
            Some(&self.bytes[offset..])
        } else {
            None
        }
    }
}

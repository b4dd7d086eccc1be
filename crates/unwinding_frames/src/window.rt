//! Words that stand near each other.

ghost use Rattle.std.specs.Prelude.{◌≡◌, ◌<◌, [], Some, IfSome, MatchOption, length};
ghost use Rattle.memory_image.specs.Image.{table_at, word_at};
ghost use Rattle.unwinding_frames.specs.Slots.{AreSlots};

use crate::kept_bytes::KeptBytes;
use memory_image::{MemoryImage, u64_at};
use std::marker::Model;

/// A place of an image, which was looked up: a word that stands there or after it, in the same
/// region, is read without a search. Beside it, where who goes from frame to frame has last read
/// tables, records and code of a module, in regions of their own.
///
/// Contracts see the image.
#[derive(Drop)]
pub struct Window<'i, 'a> {
    image: &'i MemoryImage<'a>,
    start: u64,
    // from the place to the end of its region
    bytes: &'a [u8],
    // how many places have a whole word
    places: usize,
    tables: KeptBytes<'a>,
    records: KeptBytes<'a>,
    code: KeptBytes<'a>,
}

impl<'i, 'a> Model for Window<'i, 'a> {
    ghost use Rattle.std.specs.Prelude.{List};
    ghost use Rattle.memory_image.specs.Image.{Span};
    ghost use Rattle.unwinding_frames.specs.Windows.{IsWindow, AreKeptBytes};

    ghost Value = { List Span };

    ghost view = { λ w. w.image.now };

    ghost invariant = { λ w. IsWindow w.image.now w.start w.bytes.now w.places
        × AreKeptBytes w.image.now w.tables.start w.tables.bytes.now
        × AreKeptBytes w.image.now w.records.start w.records.bytes.now
        × AreKeptBytes w.image.now w.code.start w.code.bytes.now };
}

impl<'i, 'a> Window<'i, 'a> {
    /// The image, looked up at an address.
    pub fn new(image: &'i MemoryImage<'a>, address: u64) -> Window<'i, 'a>
        ensures { result ≡ image.now }
    {
        let bytes = image.bytes_from(address);
        Window {
            image,
            start: address,
            bytes,
            places: bytes.len().saturating_sub(7),
            tables: KeptBytes::empty(),
            records: KeptBytes::empty(),
            code: KeptBytes::empty(),
        }
    }

    /// The image.
    pub fn image(&self) -> &'i MemoryImage<'a>
        ensures { result.now ≡ self.now }
    {
        self.image
    }

    /// Looks an address up, unless the word that stands there is in the window.
    pub fn seek(&mut self, address: u64)
        ensures { self.new ≡ self.old }
    {
        if address.wrapping_sub(self.start) as usize >= self.places {
            let bytes = self.image.bytes_from(address);
            self.start = address;
            self.bytes = bytes;
            self.places = bytes.len().saturating_sub(7);
        }
    }

    /// The bytes of tables, from an address to the end of its region, none where it isn't mapped. The
    /// next ones of the region are found without a search.
    pub fn tables(&mut self, address: u64) -> &'a [u8]
        ensures held { result.now ≡ table_at self.old address }
        ensures same { self.new ≡ self.old }
    {
        match self.tables.from(address) {
            Some(bytes) => bytes,
            None => self.far_tables(address),
        }
    }

    // the same where they have to be searched for
    #[cold]
    #[inline(never)]
    fn far_tables(&mut self, address: u64) -> &'a [u8]
        ensures held { result.now ≡ table_at self.old address }
        ensures same { self.new ≡ self.old }
    {
        let kept = KeptBytes::of(self.image, address);
        self.tables = kept;
        kept.bytes
    }

    /// Looks the records at an address up, unless they are in the region of those that were looked up
    /// last.
    pub fn seek_records(&mut self, address: u64)
        ensures { self.new ≡ self.old }
    {
        if self.records.from(address).is_none() {
            self.records = KeptBytes::of(self.image, address);
        }
    }

    /// Looks the code at an address up, unless it is in the region of what was looked up last.
    pub fn seek_code(&mut self, address: u64)
        ensures { self.new ≡ self.old }
    {
        if self.code.from(address).is_none() {
            self.code = KeptBytes::of(self.image, address);
        }
    }

    /// The bytes from an address to the end of its region. None where it isn't mapped. Records and
    /// code that were looked up are found without a search.
    pub fn from(&self, address: u64) -> Option<&'a [u8]>
        ensures { MatchOption result (table_at self.now address ≡ [])
            (λ bytes. (bytes.now ≡ table_at self.now address) × (0 < length bytes.now)) }
    {
        if let Some(bytes) = self.records.from(address) {
            return Some(bytes);
        }
        if let Some(bytes) = self.code.from(address) {
            return Some(bytes);
        }
        far_from(self.image, address)
    }

    /// So many bytes below an address, which all lie where the image was looked up or after it. `None`
    /// where they don't, or where none is asked for.
    #[inline(always)]
    pub fn below(&self, address: u64, size: u64) -> Option<&'a [u8]>
        ensures { IfSome result (λ slots. AreSlots self.now address size slots.now) }
    {
        let first = address.wrapping_sub(size).wrapping_sub(self.start) as usize;
        let size = size as usize;
        if size >= 8 && first < self.places && size - 8 < self.places - first {
            Some(&self.bytes[first..first + size])
        } else {
            None
        }
    }

    /// The little-endian number of the eight bytes from the address on, which all lie where the image
    /// was looked up or after it. `None` where they don't.
    pub fn read_u64(&self, address: u64) -> Option<u64>
        ensures { IfSome result (λ word. word_at self.now address ≡ Some word) }
    {
        let offset = address.wrapping_sub(self.start) as usize;
        if offset < self.places {
            Some(u64_at(self.bytes, offset))
        } else {
            None
        }
    }
}

// The bytes from an address to the end of its region, by a search.
#[cold]
#[inline(never)]
fn far_from<'a>(image: &MemoryImage<'a>, address: u64) -> Option<&'a [u8]>
    ensures { MatchOption result (table_at image.now address ≡ [])
        (λ bytes. (bytes.now ≡ table_at image.now address) × (0 < length bytes.now)) }
{
    image.from(address)
}

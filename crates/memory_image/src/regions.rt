// Regions by their first addresses.
ghost use Rattle.std.specs.Prelude.{◌≡◌, ◌+◌, ◌<◌, ◌≤◌, ◌^◌, [], None, length, OnOk, OnErr, IsOkUnless};
ghost use Rattle.std.specs.Option.{option_map};
ghost use Rattle.memory_image.specs.Image.{lowest_overlap, AddsRegion, IsLaidOut};
ghost use Rattle.memory_image.specs.Regions.{span_of, span_below, start_above, bytes_at};

use crate::ImageError;
use std::alloc::Global;
use std::collections::BTreeMap;
use std::marker::Model;
use std::ops::Bound;

/// Regions of bytes that are lent, none of which share an address, by their first addresses.
///
/// The bytes stand in a list of their own, and the map has their places there: so regions may be seen for a shorter time
/// than they are lent for, which a map of references doesn't allow.
///
/// Proofs see the list of the regions by ascending start.
#[derive(Drop)]
pub(crate) struct RegionMap<'a> {
    places: BTreeMap<u64, usize>,
    regions: Vec<&'a [u8]>,
}

impl<'a> Model for RegionMap<'a> {
    ghost use Rattle.std.specs.Prelude.{List};
    ghost use Rattle.memory_image.specs.Image.{Span, IsLaidOut};
    ghost use Rattle.memory_image.specs.Regions.{spans_of};

    ghost Value = { List Span };

    ghost view = { λ m. spans_of m.regions.items m.places.entries };

    ghost invariant = { λ m. IsLaidOut 0 (spans_of m.regions.items m.places.entries) };
}

impl<'a> RegionMap<'a> {
    /// No regions. It takes no memory yet.
    pub(crate) fn new(alloc: Global) -> RegionMap<'a>
        ensures { result ≡ [] }
    {
        RegionMap {
            places: BTreeMap::new(alloc),
            regions: Vec::new(alloc),
        }
    }

    /// Takes a region that shares no address with another.
    ///
    /// # Errors
    ///
    /// [`ImageError::NoMemory`] where there is no memory to note it. The regions are then as they were.
    pub(crate) fn insert(&mut self, address: u64, bytes: &'a [u8]) -> Result<(), ImageError>
        requires nonempty { 0 < length bytes.now }
        requires fits { address + length bytes.now ≤ 2 ^ 64 }
        requires apart { lowest_overlap self.old address (length bytes.now) ≡ None }
        ensures taken { IsOkUnless result ImageError.NoMemory }
        ensures added { OnOk result (AddsRegion self.old self.new address bytes.now) }
        ensures unchanged { OnErr result (self.new ≡ self.old) }
        ensures laid_out { IsLaidOut 0 self.new }
    {
        let place = self.regions.as_slice().len();
        if self.regions.push(bytes).is_err() {
            return Err(ImageError::NoMemory);
        }
        match self.places.insert(address, place) {
            Ok(_) => Ok(()),
            Err(_) => {
                let _ = self.regions.pop();
                Err(ImageError::NoMemory)
            }
        }
    }

    /// The last region that starts at or below the address.
    pub(crate) fn region_below(&self, address: u64) -> Option<(u64, &'a [u8])>
        ensures { option_map span_of result ≡ span_below self.now address }
    {
        match self.places.range(..=address).next_back() {
            Some((start, place)) => Some((*start, bytes_at(&self.regions, *place))),
            None => None,
        }
    }

    /// The first start of a region above the address.
    pub(crate) fn start_above(&self, address: u64) -> Option<u64>
        ensures { result ≡ start_above self.now address }
    {
        let above = (Bound::Excluded(address), Bound::Unbounded);
        match self.places.range(above).next() {
            Some((start, _)) => Some(*start),
            None => None,
        }
    }
}

/// The bytes at a place of a list, none where it has no such place.
fn bytes_at<'a>(regions: &[&'a [u8]], place: usize) -> &'a [u8]
    ensures { result.now ≡ bytes_at regions.now place }
{
    match regions.get(place) {
        Some(bytes) => *bytes,
        None => &[],
    }
}

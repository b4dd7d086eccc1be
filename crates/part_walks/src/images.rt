//! Images that are built as parts of others.
ghost use Rattle.std.specs.Prelude.{◌≡◌, ℕ, List, length, None, Some, slice_get};
ghost use Rattle.std.specs.List.{AllByRecursion};
ghost use Rattle.memory_image.specs.Image.{IsLaidOut, Span, lowest_overlap};
ghost use Rattle.stack_steps.specs.Growing.{Grows};
ghost use Rattle.mapped_modules.specs.Spaces.{with_region, with_regions};
ghost use Rattle.part_walks.specs.Parts.{HasRegion, IsPartOf, IsWithin};

/// An image that is a part of the whole stays one with each region that the whole has, whether the
/// region is taken or not, and an image that takes regions grows. Of regions that are laid out from
/// an address on, an image gets each that shares no address with what it mapped; what has a region
/// has each one within it; and a region that an image has stays as the image grows.
pub fn images_are_built_as_parts()
    ensures region { (image whole : List Span) (s : Span) → IsPartOf image whole →
        HasRegion whole s → IsPartOf (with_region image s) whole }
    ensures regions { (image whole regions : List Span) → IsPartOf image whole →
        AllByRecursion (HasRegion whole) regions → IsPartOf (with_regions image regions) whole }
    ensures tables { (image grown : List Span) → Grows image grown → IsPartOf image grown }
    ensures grows { (image regions : List Span) → Grows image (with_regions image regions) }
    ensures has { (image regions : List Span) (low i : ℕ) (s : Span) → IsLaidOut low regions →
        slice_get regions i ≡ Some s → lowest_overlap image s.start (length s.bytes) ≡ None →
        HasRegion (with_regions image regions) s }
    ensures within { (image : List Span) (inner outer : Span) → HasRegion image outer →
        IsWithin inner outer → HasRegion image inner }
    ensures stays { (image grown : List Span) (s : Span) → Grows image grown →
        HasRegion image s → HasRegion grown s }
{}

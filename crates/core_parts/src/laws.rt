//! The law of walks over parts of a core's memory. Nothing of it runs.
ghost use Rattle.std.specs.Prelude.{◌≡◌, ◌≤◌, ℕ, Bool, List, length, map};
ghost use Rattle.std.specs.List.{AllByRecursion};
ghost use Rattle.unwind_arch.specs.declared.x86_64.Context.{Context};
ghost use Rattle.core_file.specs.declared.places.SegmentPlace.{SegmentPlace};
ghost use Rattle.core_file.specs.Fronts.{FrontValue, segment_by};
ghost use Rattle.stack_walks.specs.Lines.{line_of};
ghost use Rattle.mapped_modules.specs.Loading.{LoadedValue};
ghost use Rattle.mapped_modules.specs.Spaces.{space_of_core, tables_of};
ghost use Rattle.part_walks.specs.Parts.{IsMapped};
ghost use Rattle.core_parts.specs.Parts.{CanBeWalkedByParts, IsStackPart};

/// Over parts of the segments of a core a walk that meets nothing unmapped is the walk over all of
/// them. The file of the core is long enough for its segments, these ascend and share no address, the
/// frame table of each module is found in its file, and each part lies within a segment that shares no
/// address with what was read of the modules' files.
pub fn walks_over_parts_are_those_over_all()
    ensures { (bytes : List ℕ) (front : FrontValue) (loaded : List LoadedValue)
        (parts : List SegmentPlace) → front.end ≤ length bytes →
        CanBeWalkedByParts front loaded →
        AllByRecursion (IsStackPart front.places (tables_of loaded)) parts →
        (limit : ℕ) (c : Context) (interrupted : Bool) →
        IsMapped (line_of (space_of_core loaded (map (segment_by bytes) parts)) limit c interrupted) →
        line_of (space_of_core loaded (map (segment_by bytes) front.places)) limit c interrupted ≡
        line_of (space_of_core loaded (map (segment_by bytes) parts)) limit c interrupted }
{}

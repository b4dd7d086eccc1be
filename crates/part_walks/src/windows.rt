//! Walks of a core's threads over windows of the core's segments.
ghost use Rattle.std.specs.Prelude.{◌≡◌, ℕ, Bool, List};
ghost use Rattle.memory_image.specs.Image.{IsLaidOut, Span};
ghost use Rattle.unwind_arch.specs.declared.x86_64.Context.{Context};
ghost use Rattle.stack_walks.specs.Lines.{line_of};
ghost use Rattle.mapped_modules.specs.Loading.{LoadedValue};
ghost use Rattle.mapped_modules.specs.Spaces.{codes_of, space_of_core};
ghost use Rattle.part_walks.specs.Parts.{HaveTables, IsMapped};
ghost use Rattle.part_walks.specs.Windows.{AreWindowsOf, image_of_tables};

/// A core's threads may be walked over windows of its segments: a walk over the modules' tables and
/// these windows that meets nothing unmapped is the walk over the tables and all segments. The
/// segments ascend and share no address, each window lies within one that shares none with the
/// tables, and the table of each module is found among the tables.
pub fn core_may_be_walked_over_windows()
    ensures { (loaded : List LoadedValue) (segments windows : List Span) →
        HaveTables (image_of_tables loaded) (codes_of loaded) → IsLaidOut 0 segments →
        AreWindowsOf (image_of_tables loaded) segments windows →
        (limit : ℕ) (c : Context) (interrupted : Bool) →
        IsMapped (line_of (space_of_core loaded windows) limit c interrupted) →
        line_of (space_of_core loaded segments) limit c interrupted ≡
        line_of (space_of_core loaded windows) limit c interrupted }
{}

//! Walks with marks over a part of the memory. Nothing of it runs.
ghost use Rattle.std.specs.Prelude.{◌≡◌, ◌∷◌, [], ℕ, List};
ghost use Rattle.memory_image.specs.Image.{IsLaidOut, Span};
ghost use Rattle.format_frames.specs.declared.machine.Stepped.{Stepped};
ghost use Rattle.stack_steps.specs.Growing.{Grows, over_image};
ghost use Rattle.stack_steps.specs.Modules.{SpaceValue};
ghost use Rattle.stack_steps.specs.StopSample.{pushing_space};
ghost use Rattle.part_walks.specs.Parts.{HaveTables, IsMapped, IsPartOf};
ghost use Rattle.mapped_modules.specs.Loading.{LoadedValue};
ghost use Rattle.mapped_modules.specs.Spaces.{codes_of, space_of_core};
ghost use Rattle.part_walks.specs.PartSample as sample;
ghost use Rattle.part_walks.specs.Windows.{AreWindowsOf, image_of_tables};
ghost use Rattle.named_walks.specs.Marking.{marked_line_of, stopped_at};

/// Over a part of the memory that has the frame tables of all modules, a walk with marks that meets
/// nothing unmapped is that over the whole. So the walk of a core's thread over the modules' tables
/// and windows of the core's segments is that over the tables and all segments. The stack of which
/// `part_walks` walks a window meets what is asked.
pub fn marked_walk_over_a_part_is_that_over_the_whole()
    ensures walk { (space : SpaceValue) (tables part whole : List Span) →
        HaveTables tables space.modules → Grows tables part → Grows tables whole →
        IsPartOf part whole → (limit : ℕ) (s : Stepped) →
        IsMapped (marked_line_of (over_image space part) limit s) →
        marked_line_of (over_image space whole) limit s ≡
        marked_line_of (over_image space part) limit s }
    ensures core { (loaded : List LoadedValue) (segments windows : List Span) →
        HaveTables (image_of_tables loaded) (codes_of loaded) → IsLaidOut 0 segments →
        AreWindowsOf (image_of_tables loaded) segments windows → (limit : ℕ) (s : Stepped) →
        IsMapped (marked_line_of (space_of_core loaded windows) limit s) →
        marked_line_of (space_of_core loaded segments) limit s ≡
        marked_line_of (space_of_core loaded windows) limit s }
    ensures sample { IsMapped (marked_line_of (over_image pushing_space sample.part) 2
        (stopped_at sample.start)) }
    ensures sample_core { IsMapped (marked_line_of
        (space_of_core sample.loaded (sample.window ∷ [])) 2 (stopped_at sample.start)) }
{}

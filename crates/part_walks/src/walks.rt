//! Steps and walks over a part of the memory.
ghost use Rattle.std.specs.Prelude.{◌≡◌, ℕ, Bool, List};
ghost use Rattle.memory_image.specs.Image.{Span};
ghost use Rattle.unwind_arch.specs.declared.x86_64.Context.{Context};
ghost use Rattle.stack_steps.specs.Growing.{Grows, over_image};
ghost use Rattle.stack_steps.specs.Modules.{SpaceValue};
ghost use Rattle.stack_steps.specs.Stepping.{step_of};
ghost use Rattle.stack_walks.specs.Lines.{line_of};
ghost use Rattle.part_walks.specs.Parts.{HaveTables, IsMapped, IsPartOf};

/// Over a part of the memory that has the frame tables of all modules, a step and a walk that meet
/// nothing unmapped are those over the whole: the same caller, the same states, or the same
/// refusal. The modules are ELF modules, whose tables are found in an image from which both the
/// part and the whole have grown. Nothing is asked of the order of regions or modules.
pub fn walk_over_a_part_is_that_over_the_whole()
    ensures step { (space : SpaceValue) (tables part whole : List Span) →
        HaveTables tables space.modules → Grows tables part → Grows tables whole →
        IsPartOf part whole → (c : Context) (interrupted : Bool) →
        IsMapped (step_of (over_image space part) c interrupted) →
        step_of (over_image space whole) c interrupted ≡
        step_of (over_image space part) c interrupted }
    ensures walk { (space : SpaceValue) (tables part whole : List Span) →
        HaveTables tables space.modules → Grows tables part → Grows tables whole →
        IsPartOf part whole → (limit : ℕ) (c : Context) (interrupted : Bool) →
        IsMapped (line_of (over_image space part) limit c interrupted) →
        line_of (over_image space whole) limit c interrupted ≡
        line_of (over_image space part) limit c interrupted }
{}

//! Laws of the definitions that the contracts of this crate cite. Nothing of it runs.
ghost use Rattle.std.specs.Prelude.{List};
ghost use Rattle.memory_image.specs.Image.{IsLaidOut, Span};
ghost use Rattle.stack_steps.specs.Modules.{AreApart};
ghost use Rattle.mapped_modules.specs.Loading.{LoadedValue};
ghost use Rattle.mapped_modules.specs.Spaces.{space_of_core};

/// What a core's threads are walked over is memory that is laid out, and modules no two of which share an address.
pub fn spaces_of_cores_stand()
    ensures laid_out { (loaded : List LoadedValue) (segments : List Span) →
        IsLaidOut 0 (space_of_core loaded segments).image }
    ensures apart { (loaded : List LoadedValue) (segments : List Span) →
        AreApart 0 (space_of_core loaded segments).modules }
{}

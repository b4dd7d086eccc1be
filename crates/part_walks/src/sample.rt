//! A stack of which a window is walked.
ghost use Rattle.std.specs.Prelude.{◌≡◌, ◌∷◌, [], true, length, None, Ok, Some, slice_get};
ghost use Rattle.memory_image.specs.Image.{IsLaidOut, byte_at, lowest_overlap};
ghost use Rattle.stack_steps.specs.Growing.{Grows, over_image};
ghost use Rattle.stack_steps.specs.Stepping.{step_of};
ghost use Rattle.stack_steps.specs.StopSample.{pushing_space};
ghost use Rattle.stack_walks.specs.Lines.{line_of};
ghost use Rattle.mapped_modules.specs.Spaces.{codes_of, space_of_core, with_regions};
ghost use Rattle.part_walks.specs.Parts.{HasRegion, HaveTables, IsMapped, IsPartOf, IsWithin};
ghost use Rattle.part_walks.specs.Windows.{AreWindowsOf, image_of_tables};
ghost use Rattle.part_walks.specs.PartSample as sample;

/// A thread was stopped in a function that pushes RBX. Of its stack a window has what the walk
/// reads, and lacks a word before that and one after it. The walk over the window and the frame
/// table has two states, and meets nothing unmapped.
pub fn window_of_a_stack_is_walked()
    ensures part { with_regions sample.tables (sample.window ∷ []) ≡ sample.part }
    ensures whole { with_regions sample.tables (sample.stack ∷ []) ≡ sample.whole }
    ensures tables { HaveTables sample.tables pushing_space.modules }
    ensures part_grows { Grows sample.tables sample.part }
    ensures whole_grows { Grows sample.tables sample.whole }
    ensures is_part { IsPartOf sample.part sample.whole }
    ensures lacks { byte_at sample.part 0x6ff8 ≡ None }
    ensures maps { byte_at sample.whole 0x6ff8 ≡ Some 7 }
    ensures laid_out { IsLaidOut 0 (sample.stack ∷ []) }
    ensures within { IsWithin sample.window sample.stack }
    ensures has { HasRegion sample.whole sample.stack }
    ensures has_window { HasRegion sample.whole sample.window }
    ensures step { IsMapped (step_of (over_image pushing_space sample.part) sample.start true) }
    ensures walk { IsMapped (line_of (over_image pushing_space sample.part) 2 sample.start true) }
    ensures states { line_of (over_image pushing_space sample.part) 2 sample.start true ≡
        Ok (sample.start ∷ sample.outside ∷ []) }
{}

/// The same as of a core file with this stack for its one segment, and one module.
pub fn window_of_a_core_is_walked()
    ensures tables { HaveTables (image_of_tables sample.loaded) (codes_of sample.loaded) }
    ensures laid_out { IsLaidOut 0 (sample.stack ∷ []) }
    ensures windows { AreWindowsOf (image_of_tables sample.loaded) (sample.stack ∷ [])
        (sample.window ∷ []) }
    ensures walk { IsMapped (line_of (space_of_core sample.loaded (sample.window ∷ [])) 2
        sample.start true) }
{}

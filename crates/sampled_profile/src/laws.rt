//! Laws of profiles, as functions with empty bodies: what stands in a contract here is proved.
ghost use Rattle.std.specs.Prelude.{◌≡◌, ℕ, Bool, List, Result};
ghost use Rattle.unwind_arch.specs.declared.x86_64.Context.{Context};
ghost use Rattle.perf_data.specs.declared.errors.PerfError.{PerfError};
ghost use Rattle.perf_data.specs.Records.{RecordValue};
ghost use Rattle.stack_steps.specs.Modules.{Added, SpaceValue};
ghost use Rattle.stack_walks.specs.declared.walk_end.EndReason.{EndReason};
ghost use Rattle.stack_walks.specs.WalkEnds.{ComesTo};
ghost use Rattle.stack_snapshot.specs.Origins.{OriginValue};
ghost use Rattle.sampled_profile.specs.Profiles.{profile_of, tables};
ghost use Rattle.sampled_profile.specs.Scripts.{script_of};
ghost use Rattle.sampled_profile.specs.Walks.{end_of, end_told};

/// What a profile says doesn't depend on which modules of a space are prepared.
pub fn profiles_stay_as_modules_are_prepared()
    ensures { (space : SpaceValue) (added : List Added) (origins : List OriginValue) (limit : ℕ)
        (records : List (Result RecordValue PerfError)) →
        profile_of (tables (record space { added = added }) origins limit) records ≡
        profile_of (tables space origins limit) records }
{}

/// And so it is of the samples one after another.
pub fn scripts_stay_as_modules_are_prepared()
    ensures { (space : SpaceValue) (added : List Added) (origins : List OriginValue) (limit : ℕ)
        (records : List (Result RecordValue PerfError)) →
        script_of (tables (record space { added = added }) origins limit) records ≡
        script_of (tables space origins limit) records }
{}

/// The end of a stack is the one that the reason of its walk gives.
pub fn a_reason_tells_the_end()
    ensures { (space : SpaceValue) (why : EndReason) (limit : ℕ) (c : Context) (interrupted : Bool) →
        ComesTo why space limit c interrupted →
        end_of space limit c interrupted ≡ end_told why }
{}

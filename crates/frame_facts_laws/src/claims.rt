//! When tables say claims on ranges of code.

ghost use Rattle.std.specs.Prelude.{◌<◌, ◌↔◌, ℕ, List, IsTrue};
ghost use Rattle.std.specs.List.{Contains};
ghost use Rattle.memory_image.specs.Image.{Span};
ghost use Rattle.unwind_definitions.specs.Pointers.{Bases};
ghost use Rattle.unwind_definitions.specs.Entries.{Fde};
ghost use Rattle.unwind_definitions.specs.Function.{in_range};
ghost use Rattle.unwind_definitions.specs.Module.{Module};
ghost use Rattle.frame_facts.specs.FactTables.{SaysFactsAt};
ghost use Rattle.frame_facts.specs.Claims.{Claim, SaysClaim, SaysClaims, SaysInStretches};

/// A description's rows say a claim at each address of its range exactly where one row says it for
/// each stretch: the row at the range's start, and the one at each location inside the range at
/// which the description's program begins a new row. DWARF 5, section 6.4.1.
pub fn claim_is_said_by_stretches()
    ensures { (bases : Bases) (fde : Fde) (claim : Claim) → claim.range.from < claim.range.to →
        SaysClaim bases fde claim ↔ SaysInStretches bases fde claim }
{}

/// Tables that say claims say the facts of each at each address of its range.
pub fn claims_say_facts()
    ensures { (image : List Span) (m : Module) (claims : List Claim) (claim : Claim) (a : ℕ) →
        SaysClaims image m claims → Contains claims claim → IsTrue (in_range a claim.range) →
        SaysFactsAt image m a claim.facts }
{}

//! Laws of what C++ functions ask. Nothing of it runs.
ghost use Rattle.std.specs.Prelude.{◌≡◌, ◌↔◌, ℕ, List, Ok, true, false, length};
ghost use Rattle.memory_image.specs.Image.{Span};
ghost use Rattle.unwind_definitions.specs.Pointers.{Bases};
ghost use Rattle.unwind_definitions.specs.LanguageSearch.{LanguagePlace};
ghost use Rattle.unwinding_frames.specs.CxxTables.{Cleanup, CxxTable, Exception, Handler};
ghost use Rattle.unwinding_frames.specs.CxxTables.{NoAction, Terminate, chain_from};
ghost use Rattle.unwinding_frames.specs.CxxTables.{cxx_place_action};
ghost use Rattle.unwinding_frames.specs.CxxRecords.{AsksCleanup, AsksEnd, AsksHandler};
ghost use Rattle.unwinding_frames.specs.CxxRecords.{AsksNothing, NoneTakes, TakesFirst};

/// What a chain of action records asks: to handle the exception exactly where one of its records
/// takes it, by the number of the first that does; a cleanup exactly where none takes it and one of
/// them is a cleanup; and nothing exactly where none takes it and none is a cleanup.
pub fn first_record_that_takes_decides()
    ensures handled { (image : List Span) (bases : Bases) (x : Exception) (t : CxxTable)
        (pad first filter : ℕ) →
        (chain_from (length t.head.actions.bytes) image bases x t pad first false ≡
        Ok (Handler pad filter)) ↔ TakesFirst image bases x t first filter }
    ensures cleaned { (image : List Span) (bases : Bases) (x : Exception) (t : CxxTable)
        (pad first : ℕ) →
        (chain_from (length t.head.actions.bytes) image bases x t pad first false ≡
        Ok (Cleanup pad)) ↔ NoneTakes image bases x t first true }
    ensures passed { (image : List Span) (bases : Bases) (x : Exception) (t : CxxTable)
        (pad first : ℕ) →
        (chain_from (length t.head.actions.bytes) image bases x t pad first false ≡
        Ok NoAction) ↔ NoneTakes image bases x t first false }
{}

/// When a C++ function asks for what, by the call site and the action record that decide.
pub fn cxx_actions_have_causes()
    ensures handler { (image : List Span) (x : Exception) (p : LanguagePlace)
        (a pad filter : ℕ) → (cxx_place_action image x p a ≡ Ok (Handler pad filter)) ↔
        AsksHandler image x p a pad filter }
    ensures cleanup { (image : List Span) (x : Exception) (p : LanguagePlace) (a pad : ℕ) →
        (cxx_place_action image x p a ≡ Ok (Cleanup pad)) ↔ AsksCleanup image x p a pad }
    ensures nothing { (image : List Span) (x : Exception) (p : LanguagePlace) (a : ℕ) →
        (cxx_place_action image x p a ≡ Ok NoAction) ↔ AsksNothing image x p a }
    ensures end { (image : List Span) (x : Exception) (p : LanguagePlace) (a : ℕ) →
        (cxx_place_action image x p a ≡ Ok Terminate) ↔ AsksEnd image x p a }
{}

//! Which entries of a frame table are read.

ghost use Rattle.std.specs.Prelude.{◌≡◌, ℕ, ◌+◌, ◌-◌, ◌^◌, ◌≤◌, ◌∷◌, [], true, codes};
ghost use Rattle.std.specs.List.{AllByRecursion};
ghost use Rattle.unwind_definitions.specs.Entries.{ACie, AFde, AreEntries};
ghost use Rattle.unwind_definitions.specs.Augmentation.{is_version, is_augmentation};
ghost use Rattle.unwind_definitions.specs.Pointers.{Bases};
ghost use Rattle.unwind_laws.specs.Emitted.{Four, signed_of, start_of, table, cie, fde};

/// The versions and augmentations that compilers emit are known. DWARF 5, section 6.4.1; LSB Core,
/// section 10.6.1.
pub fn emitted_augmentations_are_known()
    // The version of entries in .eh_frame.
    ensures version { is_version 1 ≡ true }
    ensures augmentations { AllByRecursion
        (λ letters. is_augmentation letters ≡ true)
        (codes "zR" ∷ codes "zPR" ∷ codes "zPLR" ∷ codes "zRS" ∷ []) }
{}

/// The bytes of the entries that compilers emit for a function without a language table: whatever
/// the start, the length and the program of the description are, they read so. The range has to end
/// below 2^64.
pub fn entries_are_spelled()
    ensures { (bases : Bases) (base : ℕ) (start size front back : Four) →
        start_of base start + signed_of size ≤ 2 ^ 64 - 1 →
        AreEntries bases (table base start size front back) 0
        (ACie (cie base) ∷ AFde (fde base start size front back) ∷ []) }
{}

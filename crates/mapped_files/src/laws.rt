//! A law of the definitions that the contracts of this crate cite. Nothing of it runs.
ghost use Rattle.std.specs.Prelude.{ℕ, List, Some};
ghost use Rattle.mapped_files.specs.Files.{AreTold};

/// Files whose bytes are told are so: what each has may be anything.
pub fn files_may_have_any_bytes()
    ensures { (files : List ℕ → List ℕ) → AreTold (λ path. Some (files path)) files }
{}

//! Numbers of variable length, and relative pointers.

ghost use Rattle.std.specs.Prelude.{◌≡◌, ℕ, List, Ok};
ghost use Rattle.unwind_definitions.specs.Input.{Input, uleb, sleb, address_of};
ghost use Rattle.unwind_definitions.specs.Pointers.{Bases, direct};
ghost use Rattle.unwind_definitions.specs.Numbers.{SpellsRelative};
ghost use Rattle.unwind_definitions.specs.PointerEncodings.{pcrel_sdata4};
ghost use Rattle.unwind_laws.specs.Spelled.{AreBytes, Follows, BeginsUnsigned, BeginsSigned};

/// An unsigned number is read where the bytes begin with its spelling, and nowhere else.
pub fn unsigned_number_is_spelled()
    ensures read { (c d : Input) (n : ℕ) → BeginsUnsigned c n d → uleb c ≡ Ok (n, d) }
    ensures spelled { (c d : Input) (n : ℕ) → AreBytes c.bytes → uleb c ≡ Ok (n, d) →
        BeginsUnsigned c n d }
{}

/// The same of a signed one, which is read as a word.
pub fn signed_number_is_spelled()
    ensures read { (c d : Input) (n : ℕ) → BeginsSigned c n d → sleb c ≡ Ok (n, d) }
    ensures spelled { (c d : Input) (n : ℕ) → AreBytes c.bytes → sleb c ≡ Ok (n, d) →
        BeginsSigned c n d }
{}

/// A pointer of four signed bytes, relative to its place, is read as what they spell.
pub fn relative_pointer_is_spelled()
    ensures { (bases : Bases) (c d : Input) (bytes : List ℕ) (to : ℕ) → Follows c bytes d →
        SpellsRelative bytes (address_of c) to → direct pcrel_sdata4 bases c ≡ Ok (to, d) }
{}

//! What is found in a frame table.

ghost use Rattle.std.specs.Prelude.{◌≡◌, ℕ, ◌<◌, ◌≤◌, ◌^◌, List, ◌∷◌, Some, Result, Ok};
ghost use Rattle.std.specs.Prelude.{is_some};
ghost use Rattle.std.specs.List.{Contains};
ghost use Rattle.memory_image.specs.Image.{Span, IsLaidOut};
ghost use Rattle.unwind_definitions.specs.Membership.{is_among};
ghost use Rattle.unwind_definitions.specs.Input.{Input};
ghost use Rattle.unwind_definitions.specs.Pointers.{Bases};
ghost use Rattle.unwind_definitions.specs.Entries.{Entry, Fde, Letters, AreEntries};
ghost use Rattle.unwind_definitions.specs.Entries.{augmentation_data};
ghost use Rattle.unwind_definitions.specs.Scan.{fdes_of, scan};
ghost use Rattle.unwind_definitions.specs.Prologue.{SystemV};
ghost use Rattle.unwind_definitions.specs.Function.{Function, IsFunction, Site, AreSitesOf};
ghost use Rattle.unwind_definitions.specs.Function.{action_among, action_at};
ghost use Rattle.unwind_definitions.specs.LanguageTable.{input_at, IsLanguageTable};
ghost use Rattle.unwind_definitions.specs.LanguageSearch.{search};
ghost use Rattle.unwind_definitions.specs.Module.{Module, IsHeaderTable, DescribesModule};
ghost use Rattle.unwind_definitions.specs.Module.{CoversNot, bases_of};
ghost use Rattle.unwind_definitions.specs.declared.error.Error.{Error};
ghost use Rattle.unwind_definitions.specs.Header.{FrameHeader, PairTable, header, table_in};
ghost use Rattle.memory_image.specs.Halving.{boundary_of};
ghost use Rattle.unwind_definitions.specs.HeaderSearch.{Finds, IsTableAnswer, boundary_in};
ghost use Rattle.unwind_definitions.specs.HeaderSearch.{pair_of_place, table_answer};
ghost use Rattle.unwind_definitions.specs.HeaderSearchLaws.{AreStarts};
ghost use Rattle.unwind_laws.specs.ByHeader.{BoundaryAnswers};
ghost use Rattle.unwind_laws.specs.Listing.{listing};
ghost use Rattle.unwind_laws.specs.Searched.{action_of_sites};
ghost use Rattle.unwind_laws.specs.Found.{found_among, nothing_found, AsksAs, FindsFunction};

/// An augmentation of a `z` and letters names a personality exactly where `P` is among them, how
/// the pointers to language tables are encoded exactly where `L` is, how addresses are encoded
/// exactly where `R` is, and a signal's frame exactly where `S` is.
pub fn letters_are_reported()
    ensures personality { (bases : Bases) (z : ℕ) (ls : List ℕ) (c d : Input) (found : Letters) →
        augmentation_data bases (z ∷ ls) c ≡ Ok (found, d) →
        is_some found.personality ≡ is_among ls 0x50 }
    ensures language { (bases : Bases) (z : ℕ) (ls : List ℕ) (c d : Input) (found : Letters) →
        augmentation_data bases (z ∷ ls) c ≡ Ok (found, d) →
        is_some found.language ≡ is_among ls 0x4c }
    ensures address { (bases : Bases) (z : ℕ) (ls : List ℕ) (c d : Input) (found : Letters) →
        augmentation_data bases (z ∷ ls) c ≡ Ok (found, d) →
        is_some found.address ≡ is_among ls 0x52 }
    ensures signal { (bases : Bases) (z : ℕ) (ls : List ℕ) (c d : Input) (found : Letters) →
        augmentation_data bases (z ∷ ls) c ≡ Ok (found, d) → found.signal ≡ is_among ls 0x53 }
{}

/// A scan of a table whose entries all read answers the first description that contains the
/// address, or that there is none.
pub fn scan_finds_first()
    ensures { (bases : Bases) (table : Input) (pc : ℕ) (entries : List Entry) → table.offset ≡ 0 →
        AreEntries bases table 0 entries →
        scan bases table pc ≡ found_among (fdes_of entries) pc }
{}

/// For an address inside a described function a scan finds that function's description.
pub fn function_is_found()
    ensures { (image : List Span) (m : Module) (functions : List Function)
        (d : DescribesModule image m functions) (f : Function) (a : ℕ) →
        Contains functions f → f.start ≤ a → a < f.end → FindsFunction image m d.frame f a }
{}

/// For an address that no description contains a scan finds none.
pub fn uncovered_is_not_found()
    ensures { (image : List Span) (m : Module) (a : ℕ) (u : CoversNot image m a) →
        scan (bases_of m u.frame) (input_at image u.frame) a ≡ nothing_found }
{}

/// Of a described module's header table the last pair that starts at or below an address names a
/// description, which stands at its own offset, and which a scan answers where it contains the
/// address; where it doesn't, or there is no such pair, a scan finds none.
pub fn header_table_answers_as_a_scan()
    ensures { (image : List Span) (m : Module) (functions : List Function)
        (d : DescribesModule image m functions) (a h : ℕ)
        (table : IsHeaderTable image h d.frame (fdes_of d.entries)) →
        BoundaryAnswers image m d.frame table.pairs a }
{}

/// The header of a described module reads, whatever its pointers may be relative to: it leads to
/// the frame table, and says how many descriptions that has. Where its table may answer so for an
/// address, a scan answers the same; so what its table answers is what a scan does.
pub fn header_search_answers_as_a_scan()
    ensures reads { (image : List Span) (h frame : ℕ) (fdes : List Fde) (bases : Bases)
        (table : IsHeaderTable image h frame fdes) →
        header bases (input_at image h) ≡ Ok (listing h bases frame fdes table.listed) }
    ensures answers { (image : List Span) (m : Module) (functions : List Function)
        (d : DescribesModule image m functions) (h : ℕ) (bases : Bases)
        (table : IsHeaderTable image h d.frame (fdes_of d.entries)) (pc : ℕ) (found : FrameHeader)
        (t : PairTable) (answer : Result Fde Error) →
        IsLaidOut 0 image → header bases (input_at image h) ≡ Ok found → table_in found ≡ Some t →
        IsTableAnswer (bases_of m d.frame) (input_at image d.frame) t pc answer →
        answer ≡ scan (bases_of m d.frame) (input_at image d.frame) pc }
    ensures exact { (image : List Span) (m : Module) (functions : List Function)
        (d : DescribesModule image m functions) (h : ℕ) (bases : Bases)
        (table : IsHeaderTable image h d.frame (fdes_of d.entries)) (pc : ℕ) (found : FrameHeader)
        (t : PairTable) →
        IsLaidOut 0 image → header bases (input_at image h) ≡ Ok found → table_in found ≡ Some t →
        table_answer (bases_of m d.frame) (input_at image d.frame) t pc ≡ scan (bases_of m d.frame)
        (input_at image d.frame) pc }
{}

/// The search of a header's table by halving finds what it may find, on every table. Where all
/// pairs can be read it is the search by halving of the list of their starts.
pub fn header_search_halves()
    ensures finds { (t : PairTable) (pc : ℕ) → Finds t pc (boundary_in t pc) }
    ensures halves { (t : PairTable) (pc : ℕ) (keys : List ℕ) → AreStarts t keys →
        boundary_in t pc ≡ pair_of_place t (boundary_of keys pc) }
{}

/// A search through a function's call sites in order, which ends at one that holds the address or
/// begins past it, finds the action of the site that holds the address.
pub fn site_search_finds_action()
    ensures { (f : Function) (sites : List Site) (a : ℕ) → AreSitesOf f sites →
        action_of_sites sites a ≡ action_among sites a }
{}

/// A search of a language table that describes a function's sites, on its bytes, finds the action
/// of the site that holds the address, and that the program ends where none does.
pub fn described_language_table_asks()
    ensures { (image : List Span) (bases : Bases) (f : Function) (table a : ℕ) (sites : List Site) →
        f.sites ≡ Some sites → AreSitesOf f sites → f.end < 2 ^ 64 →
        IsLanguageTable image table f.start sites →
        search image bases f.start a (input_at image table) ≡ Ok (action_at f a) }
{}

/// The description that is found for a described function asks what the function does: it names a
/// personality where the function has a language table, and the table gives its actions.
pub fn described_function_asks()
    ensures { (image : List Span) (m : Module) (frame : ℕ) (f : Function) (a : ℕ) →
        IsFunction SystemV f → (finds : FindsFunction image m frame f a) →
        AsksAs image (bases_of m frame) f finds.fde }
{}

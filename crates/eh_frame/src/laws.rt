//! A frame table and its index, byte for byte.

ghost use Rattle.std.specs.Prelude.{◌≡◌, ℕ, Ok};
ghost use Rattle.unwind_definitions.specs.Entries.{Fde};
ghost use Rattle.unwind_definitions.specs.Input.{Input};
ghost use Rattle.unwind_definitions.specs.Pointers.{Bases};
ghost use Rattle.unwind_definitions.specs.Scan.{scan};
ghost use Rattle.eh_frame.specs.Index.{CannotBePrepared, Index, IsFoundAt, IsPreparedFrom};
ghost use Rattle.eh_frame.specs.PreparedSample as sample;

/// The table of one function of 16 bytes that pushes RBX has an index with a row at its start and
/// one after the push, and none that is to keep a single row, whatever its pointers may be relative
/// to. The function is found at its last byte.
pub fn table_of_a_push_is_prepared()
    ensures prepared { (bases : Bases) → IsPreparedFrom bases sample.table sample.index }
    ensures limited { (bases : Bases) → CannotBePrepared bases sample.table 1 3 }
    ensures found { IsFoundAt sample.index.functions 0x40100f 0 sample.fde }
{}

/// A description of an index that contains an address is what a scan of the table answers for it.
pub fn index_answers_as_a_scan()
    ensures { (bases : Bases) (table : Input) (index : Index) (pc i : ℕ) (fde : Fde) →
        IsPreparedFrom bases table index → IsFoundAt index.functions pc i fde →
        scan bases table pc ≡ Ok fde }
{}

//! Laws of the definitions that the contracts of this crate cite, and a sample. Nothing of it runs.
ghost use Rattle.std.specs.Prelude.{◌≡◌, ℕ, List, length};
ghost use Rattle.core_file.specs.Notes.{Note};
ghost use Rattle.core_file.specs.NoteGrammar.{AreNotes};
ghost use Rattle.core_file.specs.CoreValue.{CoreValue};
ghost use Rattle.core_file.specs.CoreGrammar.{IsCore};
ghost use Rattle.core_file.specs.Fronts.{IsFrontOf, IsCoreWithFront, front_end};
ghost use Rattle.core_file.specs.Sample.{one_thread, one_thread_value};
ghost use Rattle.core_file.specs.Sample.{one_thread_front, one_thread_front_value};

/// Bytes spell one list of notes at most.
pub fn notes_are_one()
    ensures { (bytes : List ℕ) (notes others : List Note) → AreNotes bytes notes →
        AreNotes bytes others → notes ≡ others }
{}

/// Bytes are a core file in one way at most: what it holds is one.
pub fn core_is_one()
    ensures { (bytes : List ℕ) (value other : CoreValue) → IsCore bytes value →
        IsCore bytes other → value ≡ other }
{}

/// A core file of 548 bytes, with a thread and sixteen bytes of its stack, is one by the definition.
pub fn core_of_one_thread_is_read()
    ensures { IsCore one_thread one_thread_value }
{}

/// The front of that core file, its first 532 bytes, says what the file holds.
pub fn front_of_one_thread_is_read()
    ensures front { IsFrontOf one_thread_front one_thread_front_value }
    ensures core { IsCoreWithFront one_thread_front one_thread }
    ensures whole { front_end one_thread ≡ length one_thread_front }
{}

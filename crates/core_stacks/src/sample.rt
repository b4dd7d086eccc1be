// A run that is asked for. Nothing of it runs.
ghost use Rattle.std.specs.Prelude.{◌∷◌, [], codes};
ghost use Rattle.core_file.specs.Sample.{one_thread, one_thread_value};
ghost use Rattle.core_stacks.specs.Due.{Asks, AsksNames};

/// The worked core, of 548 bytes and one thread, is asked for where it is what files have, with
/// names and without.
pub fn a_core_is_asked_for()
    ensures plain { Asks (λ path. one_thread) (codes "core" ∷ []) one_thread one_thread_value }
    ensures names { AsksNames (λ path. one_thread) (codes "--names" ∷ codes "core" ∷ [])
        one_thread one_thread_value }
{}

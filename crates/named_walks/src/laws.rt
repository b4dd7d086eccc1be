//! Laws of the definitions that the contracts of this crate cite. Nothing of it runs.
ghost use Rattle.std.specs.Prelude.{◌≡◌, ℕ, [], List, map};
ghost use Rattle.memory_image.specs.Results.{result_map};
ghost use Rattle.unwind_arch.specs.declared.x86_64.Context.{Context};
ghost use Rattle.format_frames.specs.declared.machine.Stepped.{Stepped};
ghost use Rattle.stack_steps.specs.Modules.{SpaceValue};
ghost use Rattle.stack_walks.specs.Lines.{line_of};
ghost use Rattle.stack_report.specs.Report.{frame_line, line};
ghost use Rattle.core_walks.specs.Lines.{threads_text};
ghost use Rattle.named_walks.specs.Marking.{context_of, marked_line_of};
ghost use Rattle.named_walks.specs.Named.{frame_head, named_threads_text};

/// The states of a walk with their marks are those of the walk, a state's line without its function
/// is that of the state, and where no file was mapped the lines of threads are those without names.
pub fn lines_without_names()
    ensures states { (space : SpaceValue) (room : ℕ) (s : Stepped) →
        result_map (map context_of) (marked_line_of space room s) ≡
        line_of space room s.context s.signal }
    ensures head { (i : ℕ) (c : Context) → line (frame_head i c) ≡ frame_line i c }
    ensures threads { (files : List ℕ → List ℕ) (space : SpaceValue) (limit index : ℕ)
        (cs : List Context) → named_threads_text files [] space limit index cs ≡
        threads_text space limit index cs }
{}

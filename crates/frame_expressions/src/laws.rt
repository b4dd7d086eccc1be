//! What holds of the answers of expressions, whoever finds them, and examples of them.

ghost use Rattle.std.specs.Prelude.{◌≡◌, ◌↔◌, ℕ, List, [], ◌∷◌, None, Result};
ghost use Rattle.memory_image.specs.Image.{Span, word_at};
ghost use Rattle.unwind_definitions.specs.Caller.{Columns, StepFault, Unmapped};
ghost use Rattle.unwind_definitions.specs.Expressions.{Configuration, HasAnswer, HasValue};
ghost use Rattle.unwind_definitions.specs.Expressions.{HasFault, IsEndless, initial_configuration, operation_limit};
ghost use Rattle.unwind_definitions.specs.Expressions.{evaluation};

/// An expression has one answer, a value or a fault: that of the run that begins with its stack.
pub fn answer_is_that_of_a_run()
    ensures { (image : List Span) (expression stack : List ℕ) (columns : Columns)
        (answer : Result ℕ StepFault) →
        (evaluation image expression stack columns ≡ answer) ↔
        HasAnswer image columns expression (operation_limit expression) (initial_configuration stack) answer }
{}

/// `DW_OP_plus_uconst` 8, by which a register is found that was saved 8 bytes above the frame's
/// address.
pub fn sum_has_a_value()
    ensures { (image : List Span) (columns : Columns) →
        HasValue image columns (0x23 ∷ 0x08 ∷ []) (operation_limit (0x23 ∷ 0x08 ∷ []))
        (initial_configuration (0x7010 ∷ [])) 0x7018 }
{}

/// `DW_OP_deref` where nothing is mapped.
pub fn unmapped_word_is_a_fault()
    ensures { (columns : Columns) →
        HasFault [] columns (0x06 ∷ []) (operation_limit (0x06 ∷ [])) (initial_configuration (9 ∷ []))
        (Unmapped 9) }
{}

/// `DW_OP_skip` back to itself, of which 10,003 are done.
pub fn loop_is_endless()
    ensures { (image : List Span) (columns : Columns) (stack : List ℕ) →
        IsEndless image columns (0x2f ∷ 0xfd ∷ 0xff ∷ []) 10003 (initial_configuration stack) }
{}

/// Where a number that an expression reads isn't wholly mapped, the word at its address isn't
/// either.
pub fn fault_names_what_is_unmapped()
    ensures { (image : List Span) (columns : Columns) (expression : List ℕ) (limit : ℕ)
        (start : Configuration) (a : ℕ) →
        HasFault image columns expression limit start (Unmapped a) → word_at image a ≡ None }
{}

// How the passes of a delivery and the personality of Rust hang together.
ghost use Rattle.std.specs.Prelude.{◌≡◌, ◌≢◌, ◌↔◌, ℕ, Bool, true, false, List, Result, length};
ghost use Rattle.memory_image.specs.Image.{Span};
ghost use Rattle.unwind_definitions.specs.Function.{Action, Catch};
ghost use Rattle.unwind_definitions.specs.Row.{RowInstructions};
ghost use Rattle.frame_rows.specs.RowValue.{RowValue};
ghost use Rattle.unwind_arch.specs.declared.x86_64.Context.{Context};
ghost use Rattle.unwind_arch.specs.ContextViews.{columns_of};
ghost use Rattle.unwinding_frames.specs.FrameValue.{FrameValue};
ghost use Rattle.unwinding_frames.specs.Sample as sample;
ghost use Rattle.unwinding_frames.specs.Personalities.{Asked, search_answer};
ghost use Rattle.unwinding_frames.specs.Seen.{Thrown};
ghost use Rattle.stack_steps.specs.declared.error.DeliverError.{DeliverError};
ghost use Rattle.delivery_laws.specs.AnyPasses.{stepping_in, rust_in, Search, search_of};
ghost use Rattle.delivery_laws.specs.AnyPasses.{IsSearchBy, IsPassBy, IsDeliveryBy};
ghost use Rattle.stack_walks.specs.declared.unwind.Phase.TheVariants as phase;
ghost use Rattle.stack_deliver.specs.StackDelivery.{DeliveryValue, stack_delivery};
ghost use Rattle.stack_steps.specs.Modules.{SpaceValue};
ghost use Rattle.stack_steps.specs.Languages.{asked_by_rust, is_taken, rust_alone};
ghost use Rattle.stack_walks.specs.FrameVisits.{stops};
ghost use Rattle.stack_deliver.specs.Passes.{PassEnd, cleanup_of};
ghost use Rattle.delivery_laws.specs.Personality.{InSearch, InCleanup, IsAsked, AnswersCleanup};
ghost use Rattle.delivery_laws.specs.Personality.{answer_for, code_of};
ghost use Rattle.unwinding_frames.specs.declared.abi.TheConstants.UnwindReasonCode.{CONTINUE_UNWIND};
ghost use Rattle.unwinding_frames.specs.declared.abi.TheConstants.UnwindReasonCode.{HANDLER_FOUND};

/// What a delivery asks of a frame whose description names a personality is what `RustPersonality`
/// answers for it. A law: the function does nothing.
///
/// In the search the two agree in every case, and the registers stay. In a cleanup pass the
/// personality goes on where nothing is asked, installs the registers with which a landing pad is
/// entered where one is asked for, and has one of the two fatal codes where the program ends. The
/// delivery adds the size of the arguments to the stack pointer of what is installed.
/// Source: Itanium C++ ABI, exception handling, section 2.5.
pub fn passes_ask_the_personality()
    ensures search { (image : List Span) (c : Context) (interrupted : Bool) (frame : FrameValue)
        (action : Action) (asked : Asked) → IsAsked image c interrupted frame action →
        InSearch asked →
        answer_for asked image frame c interrupted ≡ (search_answer action, columns_of c) }
    ensures cleanup { (image : List Span) (c : Context) (interrupted : Bool) (frame : FrameValue)
        (action : Action) (asked : Asked) → IsAsked image c interrupted frame action →
        InCleanup asked → length c.registers ≡ 16 →
        AnswersCleanup action asked.exception c (answer_for asked image frame c interrupted) }
    // A pass stops exactly where the personality doesn't go on, and the search takes exactly where
    // a handler is found.
    ensures search_stops { (image : List Span) (c : Context) (interrupted : Bool)
        (frame : FrameValue) (action : Action) (asked : Asked) →
        IsAsked image c interrupted frame action → InSearch asked →
        (stops phase.Search (asked_by_rust action) ≡ true) ↔
        (code_of (answer_for asked image frame c interrupted) ≢ CONTINUE_UNWIND) }
    ensures search_takes { (image : List Span) (c : Context) (interrupted : Bool)
        (frame : FrameValue) (action : Action) (asked : Asked) →
        IsAsked image c interrupted frame action → InSearch asked →
        (is_taken (asked_by_rust action) ≡ true) ↔
        (code_of (answer_for asked image frame c interrupted) ≡ HANDLER_FOUND) }
    ensures cleanup_stops { (image : List Span) (c : Context) (interrupted : Bool)
        (frame : FrameValue) (action : Action) (asked : Asked) →
        IsAsked image c interrupted frame action → InCleanup asked → length c.registers ≡ 16 →
        (stops phase.Cleanup (asked_by_rust action) ≡ true) ↔
        (code_of (answer_for asked image frame c interrupted) ≢ CONTINUE_UNWIND) }
{}

/// The premises of the laws here can be met: a frame whose function has a handler at
/// 0x1020 for its calls from 0x1000 on, in the search phase. The function does nothing.
pub fn a_handler_is_asked_for()
    ensures asked { IsAsked sample.image sample.context false sample.frame (Catch 0x1020) }
    ensures search { InSearch sample.search_asked }
    ensures cleanup { InCleanup sample.cleanup_asked }
    ensures registers { length sample.context.registers ≡ 16 }
{}

/// The passes of a delivery are the passes over any stack, by the step of its space and with the
/// personality of Rust. A law: the function does nothing.
///
/// The definitions of a search and of a cleanup pass that the runs of `unwinding_core` go by hold,
/// at that step and that personality, of exactly one answer, and a delivery's is that one: the
/// states that the search visits, where it ends, and the stack pointer that it keeps; how a cleanup
/// pass toward such a stack pointer ends; and a whole delivery, which is the search and then
/// cleanup passes, each but the first from where the resume table sends the cleanup before it. The
/// personality doesn't read the row of a frame, so this may be given by any function. Source:
/// Itanium C++ ABI, exception handling, level I, section 1.3.
pub fn deliveries_are_passes()
    ensures search { (space : SpaceValue) (row : RowInstructions → RowValue) (thrown : Thrown)
        (limit : ℕ)
        (start : Context) (due : Result Search DeliverError) → length start.registers ≡ 16 →
        IsSearchBy (stepping_in space) (rust_in space row thrown) limit start due
        ↔ (due ≡ search_of space limit start) }
    ensures cleanup { (space : SpaceValue) (row : RowInstructions → RowValue) (thrown : Thrown)
        (limit kept : ℕ)
        (start : Context) (due : Result PassEnd DeliverError) → length start.registers ≡ 16 →
        IsPassBy (stepping_in space) (rust_in space row thrown) limit kept start due
        ↔ (due ≡ cleanup_of rust_alone space thrown.word kept limit start) }
    ensures delivery { (space : SpaceValue) (row : RowInstructions → RowValue) (thrown : Thrown)
        (limit : ℕ)
        (resumes : List (ℕ × ℕ)) (start : Context) (due : Result DeliveryValue DeliverError) →
        length start.registers ≡ 16 →
        IsDeliveryBy (stepping_in space) (rust_in space row thrown) limit resumes start due
        ↔ (due ≡ stack_delivery space start thrown.word resumes limit) }
{}

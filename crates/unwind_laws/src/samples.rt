//! Processes that are valid, byte for byte, and what is delivered there.

ghost use Rattle.std.specs.Prelude.{◌≡◌, ◌≢◌, ◌-◌, ◌<◌, List, [], ◌∷◌, Some, Ok, Err, false};
ghost use Rattle.std.specs.Prelude.{IsTrue};
ghost use Rattle.unwind_definitions.specs.Prologue.{Windows, steps_of};
ghost use Rattle.unwind_definitions.specs.Entered.{IsEntered, stack_after};
ghost use Rattle.unwind_definitions.specs.declared.error.Error.TheVariants.{UnexpectedEof};
ghost use Rattle.unwind_definitions.specs.Pointers.{Bases, Direct};
ghost use Rattle.unwind_definitions.specs.Function.{Site, Cleanup, Catch, Terminate, IsFunction};
ghost use Rattle.unwind_definitions.specs.Function.{action_at};
ghost use Rattle.unwind_definitions.specs.LanguageTable.{input_at, IsLanguageTable};
ghost use Rattle.unwind_definitions.specs.LanguageTable.{LeadsToLanguage};
ghost use Rattle.unwind_definitions.specs.LanguageSearch.{search};
ghost use Rattle.unwind_definitions.specs.Caller.{Table};
ghost use Rattle.unwind_definitions.specs.HeaderSearch.{IsTableAnswer};
ghost use Rattle.unwind_definitions.specs.HeaderSearchLaws.{AreStarts};
ghost use Rattle.unwind_definitions.specs.Module.{IsElfProcess, bases_of, in_module};
ghost use Rattle.unwind_definitions.specs.Delivery.{delivery_of};
ghost use Rattle.unwind_definitions.specs.Valid.{IsElfValid};
ghost use Rattle.unwind_definitions.specs.Stopped.{StandsAfter};
ghost use Rattle.unwind_laws.specs.Columns.{columns_of};
ghost use Rattle.unwind_laws.specs.Pushing as pushing;
ghost use Rattle.unwind_laws.specs.Three as three;
ghost use Rattle.unwind_laws.specs.Returning as returning;
ghost use Rattle.unwind_laws.specs.Storing as storing;
ghost use Rattle.unwind_laws.specs.Running.{HasNoFault};
ghost use Rattle.unwind_laws.specs.Undoes.{AreRules};
ghost use Rattle.unwind_laws.specs.Walked.{CanStep, CanStepInside};
ghost use Rattle.unwind_laws.specs.Windows as windows;

/// A call of a function that pushes RBX, from a caller that returns to 0.
pub fn one_call_is_valid()
    ensures process { IsElfProcess pushing.process }
    ensures valid { IsElfValid pushing.process (columns_of pushing.start) [] (pushing.function ∷ [])
        pushing.start pushing.calls }
    ensures delivery { delivery_of 0 pushing.start pushing.calls ≡ pushing.delivery }
    ensures step { CanStep pushing.process (pushing.function ∷ []) (pushing.start.ra - 1)
        pushing.start (record { callee = pushing.function; caller = pushing.caller }) }
{}

/// The programs of that function's frame meet no fault, and the row in its body has these rules.
pub fn programs_run_without_fault()
    ensures runs { HasNoFault 0x401000 pushing.common pushing.body_run.own }
    ensures rules { AreRules pushing.body_run pushing.body_rules }
{}

/// The same where the pushed register's slot holds another value: it is not so entered.
pub fn other_slot_is_no_entering()
    ensures { IsEntered pushing.other_image false (steps_of pushing.function.prologue)
        pushing.caller pushing.start → ⊥ }
{}

/// Three calls of that function, by itself.
pub fn three_calls_are_valid()
    ensures process { IsElfProcess pushing.process_of_three }
    ensures valid { IsElfValid pushing.process_of_three (columns_of pushing.start) []
        (pushing.function ∷ []) pushing.start pushing.calls_of_three }
    ensures delivery { delivery_of 0 pushing.start pushing.calls_of_three ≡
        pushing.delivery_of_three }
{}

/// A function with late save records and an epilogue in its midst, called by an outermost one, in a
/// table that also has a description of other code.
pub fn calls_of_an_outermost_function_are_valid()
    ensures process { IsElfProcess returning.process }
    ensures valid { IsElfValid returning.process (columns_of returning.start) [] returning.functions
        returning.start returning.calls }
    ensures delivery { delivery_of 0 returning.start returning.calls ≡ returning.delivery }
{}

/// That function stopped inside its prologue, after two of its three steps.
pub fn state_stands_inside_a_prologue()
    ensures stands { StandsAfter returning.image returning.callee returning.done returning.later
        returning.caller returning.interrupted }
    ensures step { CanStepInside returning.process returning.functions returning.done
        returning.later returning.interrupted
        (record { callee = returning.callee; caller = returning.caller }) }
{}

/// A function that stores R12 into its frame, called by one that sets RBP as its frame pointer and
/// in its body has a lower stack pointer than its prologue left.
pub fn calls_through_a_frame_pointer_are_valid()
    ensures process { IsElfProcess storing.process }
    ensures valid { IsElfValid storing.process (columns_of storing.start) [] storing.functions
        storing.start storing.calls }
    ensures lower { storing.caller.sp < stack_after (storing.last.sp - 8)
        (steps_of storing.framed.prologue) }
    ensures delivery { delivery_of 0 storing.start storing.calls ≡ storing.delivery }
{}

/// Three functions, two of them with language tables: the second runs a cleanup, the third catches.
pub fn calls_are_caught()
    ensures process { IsElfProcess three.process }
    ensures valid { IsElfValid three.process (columns_of three.start) three.resumes three.functions
        three.start three.calls }
    ensures delivery { delivery_of three.exception three.start three.calls ≡ three.delivery }
{}

/// The same by a header table.
pub fn calls_by_a_header_are_caught()
    ensures process { IsElfProcess three.header_process }
    ensures valid { IsElfValid three.header_process (columns_of three.start) three.resumes
        three.functions three.start three.calls }
{}

/// The pairs of that header's table begin at the starts of the three functions, and by the first of
/// them the table may answer for an address in the first function.
pub fn header_table_lists_starts()
    ensures starts { AreStarts three.pairs three.starts }
    ensures answer { IsTableAnswer (bases_of three.module_with_header 0x500000) three.table
        three.pairs 0x40100f (Ok three.fde_a) }
{}

/// A state after these functions, in a module that is longer than they are: none of the
/// descriptions that its header lists contains the address, and the stack ends there.
pub fn stack_ends_after_the_functions()
    ensures whole { IsElfValid three.longer_process (columns_of three.after) [] three.functions
        three.after [] }
    ensures inside { IsTrue (in_module (three.after.ra - 1) three.longer_module) }
{}

/// The same where the third function's call is in no site of its language table.
pub fn unlisted_call_ends_the_program()
    ensures valid { IsElfValid three.unlisted_process (columns_of three.start) three.resumes
        three.functions three.start three.unlisted_calls }
    ensures action { action_at three.fc (0x401070 - 1) ≡ Terminate }
    ensures delivery { delivery_of three.exception three.start three.unlisted_calls ≡
        three.unlisted_delivery }
{}

/// The same where the functions lie in two modules.
pub fn calls_through_two_modules_are_caught()
    ensures process { IsElfProcess three.process_of_two }
    ensures valid { IsElfValid three.process_of_two (columns_of three.start) three.resumes
        three.functions three.start three.calls }
{}

/// The same where the second function calls itself twice: its cleanup runs three times.
pub fn each_call_is_cleaned()
    ensures process { IsElfProcess three.deep_process }
    ensures valid { IsElfValid three.deep_process (columns_of three.deep_start) three.resumes
        three.functions three.deep_start three.deep_calls }
    ensures delivery { delivery_of three.exception three.deep_start three.deep_calls ≡
        three.deep_delivery }
{}

/// The first of these functions alone in its module, called from an address that no module holds:
/// the stack ends there.
pub fn call_from_outside_is_valid()
    ensures process { IsElfProcess three.process_of_first }
    ensures valid { IsElfValid three.process_of_first (columns_of three.start) [] (three.fa ∷ [])
        three.start (three.first_call ∷ []) }
    ensures outside { three.second.ra ≢ 0 }
    ensures delivery { delivery_of three.exception three.start (three.first_call ∷ []) ≡
        three.first_delivery }
{}

/// The language tables of these functions describe their sites. At the calls of the second and the
/// third function they ask for a cleanup and for a handler, and at a call that no site holds the
/// program ends.
pub fn language_tables_ask()
    ensures second { LeadsToLanguage three.process.image three.fb (Some (Direct 0x502000)) }
    ensures third { LeadsToLanguage three.process.image three.fc (Some (Direct 0x50200c)) }
    ensures cleanup { (bases : Bases) →
        search three.process.image bases three.fb.start (0x401030 - 1)
        (input_at three.process.image 0x502000) ≡ Ok (Cleanup 0x401040) }
    ensures handler { (bases : Bases) →
        search three.process.image bases three.fc.start (0x401060 - 1)
        (input_at three.process.image 0x50200c) ≡ Ok (Catch 0x401070) }
    ensures unlisted { (bases : Bases) →
        search three.process.image bases three.fc.start (0x401070 - 1)
        (input_at three.process.image 0x50200c) ≡ Ok Terminate }
{}

/// A language table whose action table is cut inside a number describes no sites, and at a call in
/// the site that names this number it can't be read.
pub fn cut_language_table_describes_nothing()
    ensures undescribed { (sites : List Site) →
        IsLanguageTable three.cut_image 0x50200c three.fc.start sites → ⊥ }
    ensures unread { (bases : Bases) →
        search three.cut_image bases three.fc.start (0x401060 - 1)
        (input_at three.cut_image 0x50200c) ≡ Err (Table UnexpectedEof) }
{}

/// A function under the rules of Windows, whose chained record tells of its first two steps, sets
/// RBP above the stack pointer and stores an XMM register: it is one, and a state is entered by it.
pub fn windows_function_is_entered()
    ensures function { IsFunction Windows windows.function }
    ensures entered { IsEntered windows.image false (steps_of windows.prologue) windows.caller
        windows.start }
{}

//! What a chain through modules of three formats determines.

ghost use Rattle.std.specs.Prelude.{◌≡◌, ◌<◌, ◌≤◌, ℕ, List, IsTrue};
ghost use Rattle.std.specs.List.{AllPairs, Contains};
ghost use Rattle.memory_image.specs.Image.{Span};
ghost use Rattle.unwind_definitions.specs.Caller.{Columns};
ghost use Rattle.unwind_definitions.specs.State.{State};
ghost use Rattle.unwind_definitions.specs.Function.{Function};
ghost use Rattle.unwind_definitions.specs.Chain.{Call, states_of};
ghost use Rattle.unwind_definitions.specs.Delivery.{delivery_of};
ghost use Rattle.unwind_laws.specs.Apart.{FunctionsApart};
ghost use Rattle.format_definitions.specs.Modules.{FormatModule, in_format};
ghost use Rattle.format_definitions.specs.Modules.{LiesDescribed, IsDescribedChain};
ghost use Rattle.format_definitions.specs.Process.{IsProcess};
ghost use Rattle.format_definitions.specs.Valid.{IsValid};

/// An address lies in one module at most, and each address of a described function in the module
/// that describes it.
pub fn address_lies_in_one_module()
    ensures one { (image : List Span) (modules : List FormatModule) (a : ℕ) (m n : FormatModule)
        → IsProcess image modules
        → Contains modules m
        → Contains modules n
        → IsTrue (in_format a m)
        → IsTrue (in_format a n)
        → m ≡ n }
    ensures home { (image : List Span) (modules : List FormatModule) (functions : List Function)
        (f : Function) (a : ℕ)
        → (lies : LiesDescribed image modules functions f)
        → Contains functions f
        → f.start ≤ a
        → a < f.end
        → IsTrue (in_format a lies.home) }
{}

/// The chain of a valid start is described.
pub fn valid_format_chain_is_described()
    ensures { (image : List Span) (modules : List FormatModule) (start : Columns)
        (resumes : List (ℕ × ℕ)) (functions : List Function) (s : State) (calls : List Call)
        → IsValid image modules start resumes functions s calls
        → IsDescribedChain image modules functions s calls }
{}

/// Two described chains of one start go through the same states, and what is delivered to them is
/// one, whatever lists of functions they are over.
pub fn format_delivery_is_one()
    ensures states { (image : List Span) (modules : List FormatModule)
        (functions others : List Function) (s : State) (calls more : List Call)
        → IsProcess image modules
        → IsDescribedChain image modules functions s calls
        → IsDescribedChain image modules others s more
        → states_of s calls ≡ states_of s more }
    ensures delivery { (image : List Span) (modules : List FormatModule)
        (functions others : List Function) (s : State) (calls more : List Call) (exception : ℕ)
        → IsProcess image modules
        → IsDescribedChain image modules functions s calls
        → IsDescribedChain image modules others s more
        → delivery_of exception s calls ≡ delivery_of exception s more }
{}

/// Over functions that share no address, two described chains of one start are one.
pub fn format_chain_is_one()
    ensures { (image : List Span) (modules : List FormatModule) (functions : List Function)
        (s : State) (calls more : List Call)
        → IsProcess image modules
        → AllPairs FunctionsApart functions
        → IsDescribedChain image modules functions s calls
        → IsDescribedChain image modules functions s more
        → calls ≡ more }
{}

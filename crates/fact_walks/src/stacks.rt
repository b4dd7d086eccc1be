//! Which stacks are known, and what a context that shows their innermost state determines.

ghost use Rattle.std.specs.Prelude.{◌≡◌, ◌≢◌, ℕ, Bool, List, ◌∷◌, true, false};
ghost use Rattle.memory_image.specs.Image.{IsLaidOut};
ghost use Rattle.unwind_definitions.specs.State.{State, IsState, Shows};
ghost use Rattle.unwind_definitions.specs.Function.{Action, Function};
ghost use Rattle.unwind_definitions.specs.Chain.{Call, states_of};
ghost use Rattle.frame_facts.specs.Facts.{Facts, StandsWith};
ghost use Rattle.frame_facts.specs.FactTables.{AreSaidAt};
ghost use Rattle.frame_facts.specs.FactChains.{FactFrame, IsFactChain, address_asked, chain_states};
ghost use Rattle.frame_facts.specs.FactDeliveries.{AsksAt};
ghost use Rattle.unwind_arch.specs.declared.x86_64.Context.{Context};
ghost use Rattle.unwind_arch.specs.ContextViews.{columns_of};
ghost use Rattle.stack_steps.specs.Modules.{AreApart, AreElf, SpaceValue};
ghost use Rattle.stack_steps.specs.SpaceViews.{process_of};
ghost use Rattle.stack_steps.specs.Stopped.{StartsStopped};
ghost use Rattle.stack_steps.specs.KnownFrames.{MeetsFrame};
ghost use Rattle.stack_steps.specs.KnownStacks.{IsKnownStack};
ghost use Rattle.stack_walks.specs.Walking.{StartsChain};
ghost use Rattle.stack_walks.specs.KnownWalks.{StartsKnownStack};
ghost use Rattle.fact_walks.specs.Callers.{callers_in, callers_of};

/// A chain of facts through ELF modules is a known stack, of the same states. Its start may have
/// been interrupted where it stands, wherever facts are said: in a prologue, a body, an epilogue, or
/// a part of a function that lies apart from it.
pub fn fact_chain_is_a_known_stack()
    ensures stack { (space : SpaceValue) (interrupted : Bool) (s : State)
        (frames : List FactFrame) →
        AreElf space.modules → IsFactChain (process_of space) interrupted s frames →
        IsKnownStack space interrupted s (callers_in frames) }
    ensures states { (s : State) (frames : List FactFrame) →
        s ∷ callers_in frames ≡ chain_states s frames }
{}

/// Whatever the clauses of walks ask of a described chain of calls, or of a stop in a described
/// function, a known stack of the same states meets what they ask of such a stack. A state that was
/// stopped is one of words, as any state that registers show.
pub fn described_starts_are_known()
    ensures chain { (space : SpaceValue) (c : Context) (limit : ℕ) (functions : List Function)
        (s : State) (calls : List Call) → StartsChain space c limit functions s calls →
        StartsKnownStack space c limit false s (callers_of calls) }
    ensures stopped { (space : SpaceValue) (c : Context) (limit : ℕ) (functions : List Function)
        (s : State) (call : Call) (calls : List Call) → IsState s →
        StartsStopped space c limit functions s call calls →
        StartsKnownStack space c limit true s (callers_of (call ∷ calls)) }
    ensures states { (s : State) (calls : List Call) → s ∷ callers_of calls ≡ states_of s calls }
{}

/// The step where facts are said in its parts: the frame at the context, what its language asks
/// there, the size of its arguments, and its caller. These are what the passes of a delivery take of
/// a frame. Source: Itanium C++ ABI, exception handling, level I.
pub fn frame_with_facts_is_met()
    ensures { (space : SpaceValue) (c : Context) (interrupted : Bool) (facts : Facts) (s t : State)
        (action : Action) (arguments : ℕ) →
        AreApart 0 space.modules → IsLaidOut 0 space.image → IsState s → IsState t → s.ra ≢ 0 →
        Shows (columns_of c) s →
        (said : AreSaidAt (process_of space) (address_asked interrupted s) facts) →
        StandsWith space.image facts t s →
        AsksAt (process_of space) (address_asked interrupted s) facts said action arguments →
        MeetsFrame space c interrupted action arguments t }
{}

/// All known stacks that one context begins have the same states.
pub fn known_stack_is_one()
    ensures { (space : SpaceValue) (c : Context) (limit : ℕ) (interrupted : Bool) (s t : State)
        (callers others : List State) →
        AreApart 0 space.modules → IsLaidOut 0 space.image →
        StartsKnownStack space c limit interrupted s callers →
        StartsKnownStack space c limit interrupted t others → s ∷ callers ≡ t ∷ others }
{}

//! Which deliveries start at known stacks.

ghost use Rattle.std.specs.Prelude.{◌≡◌, ◌∷◌, ℕ, List, length};
ghost use Rattle.memory_image.specs.Image.{IsLaidOut};
ghost use Rattle.unwind_definitions.specs.State.{State};
ghost use Rattle.unwind_definitions.specs.Function.{Function};
ghost use Rattle.unwind_definitions.specs.Chain.{Call};
ghost use Rattle.unwind_definitions.specs.Delivery.{delivery_of, frames_of};
ghost use Rattle.frame_facts.specs.FactDeliveries.{AskedFrame, asked_frames_of, delivery_to};
ghost use Rattle.unwind_arch.specs.declared.x86_64.Context.{Context};
ghost use Rattle.stack_steps.specs.Modules.{AreApart, SpaceValue};
ghost use Rattle.fact_walks.specs.Callers.{callers_of};
ghost use Rattle.stack_deliver.specs.Delivering.{StartsValidChain};
ghost use Rattle.stack_deliver.specs.KnownDeliveries.{StartsKnownDelivery};

/// Whatever the clauses of deliveries ask of a described chain of calls, a known stack of the same
/// states meets what they ask of such a stack, where each frame asks what its function does and has
/// no arguments; and what is delivered to these frames is what is delivered to the chain.
pub fn described_deliveries_are_known()
    ensures chain { (space : SpaceValue) (c : Context) (resumes : List (ℕ × ℕ)) (limit : ℕ)
        (functions : List Function) (s : State) (calls : List Call) →
        AreApart 0 space.modules → IsLaidOut 0 space.image →
        StartsValidChain space c resumes limit functions s calls →
        StartsKnownDelivery space c resumes limit s (callers_of calls)
        (asked_frames_of (frames_of s calls)) }
    ensures delivered { (space : SpaceValue) (c : Context) (resumes : List (ℕ × ℕ)) (limit : ℕ)
        (functions : List Function) (s : State) (calls : List Call) (exception : ℕ) →
        StartsValidChain space c resumes limit functions s calls →
        delivery_to exception (s ∷ callers_of calls) (asked_frames_of (frames_of s calls)) ≡
        delivery_of exception s calls }
{}

/// What is delivered to all known stacks that one context begins is the same, whichever facts they
/// are known by.
pub fn known_delivery_is_one()
    ensures { (space : SpaceValue) (c : Context) (resumes : List (ℕ × ℕ)) (limit : ℕ) (s t : State)
        (callers others : List State) (frames also : List AskedFrame) (exception : ℕ) →
        AreApart 0 space.modules → IsLaidOut 0 space.image → length c.registers ≡ 16 →
        StartsKnownDelivery space c resumes limit s callers frames →
        StartsKnownDelivery space c resumes limit t others also →
        delivery_to exception (s ∷ callers) frames ≡ delivery_to exception (t ∷ others) also }
{}

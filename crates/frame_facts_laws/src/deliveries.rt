//! What is asked and delivered along a chain of facts.

ghost use Rattle.std.specs.Prelude.{◌≡◌, ◌-◌, ℕ, List, ◌∷◌, Some, false};
ghost use Rattle.memory_image.specs.Image.{Span};
ghost use Rattle.unwind_definitions.specs.State.{State};
ghost use Rattle.unwind_definitions.specs.Function.{Function, Action};
ghost use Rattle.unwind_definitions.specs.Module.{Process, IsUncovered};
ghost use Rattle.unwind_definitions.specs.Chain.{Call, IsChain, states_of};
ghost use Rattle.unwind_definitions.specs.Delivery.{frames_of, delivery_of};
ghost use Rattle.unwind_definitions.specs.Delivery.{cleanup_pad, resume_of};
ghost use Rattle.unwind_definitions.specs.Valid.{IsElfChain};
ghost use Rattle.frame_facts.specs.Facts.{Facts};
ghost use Rattle.frame_facts.specs.FactTables.{AreSaidAt};
ghost use Rattle.frame_facts.specs.FactChains.{FactFrame, IsFactChain};
ghost use Rattle.frame_facts.specs.StepFacts.{called_frames};
ghost use Rattle.frame_facts.specs.FactDeliveries.{AsksAt, AreAsked, AskedFrame, GoesOnAt};
ghost use Rattle.frame_facts.specs.FactDeliveries.{ResumesIn, past};
ghost use Rattle.frame_facts.specs.FactDeliveries.{delivery_to, asked_frames_of};
ghost use Rattle.frame_facts_laws.specs.FactWalks.{DescriptionAsks};

/// The description that says facts at an address names a personality where its language table asks
/// anything, and that table asks what its call sites do. Source: Itanium C++ ABI, exception
/// handling, level II.
pub fn description_with_facts_asks()
    ensures { (p : Process) (a : ℕ) (facts : Facts) (said : AreSaidAt p a facts) (action : Action)
        (arguments : ℕ) →
        AsksAt p a facts said action arguments → DescriptionAsks p a facts said action }
{}

/// Where a frame goes on after its cleanup, in whichever description, its state past the arguments
/// and the frames outside of it are a chain of facts again; so too at the return address that a
/// resume table has for the landing pad.
pub fn cleaned_frame_goes_on()
    ensures at { (p : Process) (f : AskedFrame) (t : State) (frames : List FactFrame) (ret : ℕ)
        (on : GoesOnAt p f t ret) → IsFactChain p false t frames →
        IsFactChain p false (record (past f) { ra = ret })
        (record { facts = on.facts; caller = t } ∷ frames) }
    ensures by_table { (p : Process) (resumes : List (ℕ × ℕ)) (f : AskedFrame) (t : State)
        (frames : List FactFrame) (pad : ℕ) →
        cleanup_pad f.action ≡ Some pad → ResumesIn p resumes f t → IsFactChain p false t frames →
        (ret : ℕ) × (resume_of resumes pad ≡ Some ret)
        × ((facts : Facts) × IsFactChain p false (record (past f) { ra = ret })
        (record { facts = facts; caller = t } ∷ frames)) }
{}

/// What is delivered to the frames of a chain of calls, each of which asks what its function does
/// and has no arguments, is what is delivered to the chain.
pub fn calls_are_delivered_alike()
    ensures { (p : Process) (functions : List Function) (s : State) (calls : List Call)
        (exception : ℕ) →
        IsChain p.image (IsUncovered p) functions s calls →
        delivery_to exception (states_of s calls) (asked_frames_of (frames_of s calls)) ≡
        delivery_of exception s calls }
{}

/// The tables that describe the functions of a chain ask, along the chain of facts that it is, what
/// the functions do.
pub fn described_chain_asks()
    ensures { (p : Process) (functions : List Function) (s : State) (calls : List Call) →
        IsElfChain p functions s calls →
        (chain : IsFactChain p false s (called_frames calls))
        × AreAsked p s (called_frames calls) chain (asked_frames_of (frames_of s calls)) }
{}

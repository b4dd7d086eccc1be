// What is answered over a space, whichever of its modules are prepared.
ghost use Rattle.std.specs.Prelude.{◌≡◌, ℕ, Bool, List};
ghost use Rattle.unwind_arch.specs.declared.x86_64.Context.{Context as Registers};
ghost use Rattle.stack_walks.specs.Lines.{line_of};
ghost use Rattle.stack_deliver.specs.StackDelivery.{stack_delivery};
ghost use Rattle.stack_steps.specs.Modules.{Added, SpaceValue};
ghost use Rattle.stack_steps.specs.Stepping.{step_of};

/// What a step, a walk and a delivery are to answer doesn't depend on which modules of a space are
/// prepared. The function does nothing.
pub fn answers_stay_as_modules_are_prepared()
    ensures steps { (space : SpaceValue) (added : List Added) (c : Registers) (interrupted : Bool) →
        step_of (record space { added = added }) c interrupted ≡ step_of space c interrupted }
    ensures lines { (space : SpaceValue) (added : List Added) (limit : ℕ) (c : Registers)
        (interrupted : Bool) → line_of (record space { added = added }) limit c interrupted ≡
        line_of space limit c interrupted }
    ensures deliveries { (space : SpaceValue) (added : List Added) (c : Registers) (exception : ℕ)
        (resumes : List (ℕ × ℕ)) (limit : ℕ) →
        stack_delivery (record space { added = added }) c exception resumes limit ≡
        stack_delivery space c exception resumes limit }
{}

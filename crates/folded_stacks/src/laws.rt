//! Laws of stacks and counts, and a sample of them, as functions with empty bodies: what stands in a
//! contract here is proved.
ghost use Rattle.std.specs.Prelude.{◌≡◌, ◌↔◌, ◌+◌, ◌∷◌, [], ℕ, List, Ok, length, sum_by};
ghost use Rattle.std.specs.declared.cmp.Ordering.TheVariants.{Less, Equal};
ghost use Rattle.std.specs.List.{Contains};
ghost use Rattle.unwind_laws.specs.Pushing as pushing;
ghost use Rattle.stack_steps.specs.StopSample.{after_the_push, pushing_space};
ghost use Rattle.stack_steps.specs.Modules.{SpaceValue};
ghost use Rattle.stack_walks.specs.Walking.{StartsChain};
ghost use Rattle.folded_stacks.specs.Counts.{IsFolded, StackCount};
ghost use Rattle.folded_stacks.specs.declared.samples.Sample.{Sample};
ghost use Rattle.folded_stacks.specs.Folding.{accepted, chain_stack, fold_of};
ghost use Rattle.folded_stacks.specs.FoldSample.{folded_three, sample_at, three_samples};
ghost use Rattle.folded_stacks.specs.Stacks.{ComesBefore, stack_order};

/// The order of stacks compares them word by word, with a stack that another begins with before it.
/// Of two stacks one comes before the other, or they are one.
pub fn stacks_have_one_order()
    ensures before { (s t : List ℕ) → (stack_order s t ≡ Less) ↔ ComesBefore s t }
    ensures same { (s t : List ℕ) → (stack_order s t ≡ Equal) ↔ (s ≡ t) }
{}

/// The lines are determined by the stacks that they count.
pub fn counts_are_exact()
    ensures { (stacks : List (List ℕ)) (lines others : List StackCount) →
        IsFolded stacks lines → IsFolded stacks others → lines ≡ others }
{}

/// What is folded of samples has the distinct stacks of those whose walks are accepted, in order and
/// each once, with the number of the samples that show it; and each sample counts once.
pub fn folds_count_each_sample()
    ensures lines { (space : SpaceValue) (limit : ℕ) (samples : List Sample) →
        IsFolded (accepted space limit samples) (fold_of space limit samples).lines }
    ensures adds_up { (space : SpaceValue) (limit : ℕ) (samples : List Sample) →
        sum_by (λ line. line.count) (fold_of space limit samples).lines
        + (fold_of space limit samples).refused ≡ length samples }
{}

/// Samples of a function that pushes RBX, two of them after the push, meet what `fold` asks of a
/// described chain, and what is folded of them is this.
pub fn repeated_samples_are_folded()
    ensures held { Contains three_samples (sample_at 0x401006) }
    ensures described { StartsChain pushing_space (sample_at 0x401006).start 4
        (pushing.function ∷ []) pushing.start (after_the_push ∷ []) }
    ensures stack { chain_stack pushing.start (after_the_push ∷ []) ≡ 0x401006 ∷ [] }
    ensures folded { fold_of pushing_space 4 three_samples ≡ folded_three }
{}

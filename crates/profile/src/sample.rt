// Runs that are asked for. Nothing of them runs.
ghost use Rattle.std.specs.Prelude.{◌≡◌, ◌∷◌, [], codes};
ghost use Rattle.unwind_laws.specs.Pushing as pushing;
ghost use Rattle.perf_data.specs.Sample.{one_sample};
ghost use Rattle.folded_stacks.specs.Counts.{IsFolded, counts_of};
ghost use Rattle.popped_registers.specs.PoppedSample as popped_stack;
ghost use Rattle.sampled_profile.specs.KnownSamples.{BeginsKnownFront, BeginsKnownStack};
ghost use Rattle.sampled_profile.specs.KnownSamples.{BeginsPoppedStack, HasSample};
ghost use Rattle.sampled_profile.specs.KnownSamples.{known_text, popped_text};
ghost use Rattle.sampled_profile.specs.Profiles.{stacks_of};
ghost use Rattle.sampled_profile.specs.Scripts.{script_text};
ghost use Rattle.profile.specs.declared.request.Form.TheVariants.{Folded, Script};
ghost use Rattle.profile.specs.Due.{Asks};
ghost use Rattle.profile.specs.KnownSample as known;
ghost use Rattle.profile.specs.PoppedSample as popped;
ghost use Rattle.profile.specs.Sample.{file, records, walked};

/// A perf.data file of 440 bytes, whose one sample was taken in a function that pushes RBX, is asked
/// for with the tables of this function, and has lines.
pub fn a_profile_is_asked_for()
    ensures asked { Asks Folded (codes "tables.json" ∷ []) file one_sample walked records }
    ensures folded { IsFolded (stacks_of walked records) (counts_of (stacks_of walked records)) }
{}

/// Its samples one after another are asked for.
pub fn a_script_is_asked_for()
    ensures { Asks Script (codes "--script" ∷ codes "tables.json" ∷ []) file one_sample walked
        records }
{}

/// A perf.data file of 336 bytes is asked for with the tables of the same function, in whose body its
/// one sample was taken. With the copy of the thread's whole stack it is known from the bytes on how
/// the caller's state follows, and this is the stack's text.
pub fn a_known_stack_is_asked_for()
    ensures asked { Asks Folded (codes "tables.json" ∷ []) file known.bytes walked known.records }
    ensures script { Asks Script (codes "--script" ∷ codes "tables.json" ∷ []) file known.bytes
        walked known.records }
    ensures has { HasSample known.records known.sample_value known.earlier }
    ensures begins { BeginsKnownStack walked.space walked.limit known.sample_value pushing.start
        (pushing.caller ∷ []) }
    ensures text { (is : BeginsKnownStack walked.space walked.limit known.sample_value
        pushing.start (pushing.caller ∷ [])) → known_text walked known.earlier known.sample_value
        pushing.start (pushing.caller ∷ []) is ≡ codes "ab;a.out+0x1000" }
{}

/// A perf.data file of 344 bytes is asked for with the tables of a function that pushes RBX, at
/// whose return, after the pop, its one sample was taken. RBX's slot isn't in the copy of the stack,
/// which begins at the stack pointer; its word is kept, and these are the stack's text and its lines.
/// With the word it is known from the bytes on how each caller's state follows.
pub fn a_popped_stack_is_asked_for()
    ensures asked { Asks Folded (codes "tables.json" ∷ []) popped.file popped.bytes popped.walked
        popped.records }
    ensures asked_script { Asks Script (codes "--script" ∷ codes "tables.json" ∷ []) popped.file
        popped.bytes popped.walked popped.records }
    ensures stacks { stacks_of popped.walked popped.records ≡
        codes "ab;a.out+0x1000;a.out+0x1000;[popped]" ∷ [] }
    ensures script { script_text popped.walked popped.records ≡
        codes "ab 7/8 0.000000009: 1 samples:\n\t0x0 [popped] ([unknown])\n\t0x40100f a.out+0x1000+0xf (a.out)\n\t0x401005 a.out+0x1000+0x5 (a.out)\n\n" }
    ensures has { HasSample popped.records popped.sample_value popped.earlier }
    ensures begins { BeginsPoppedStack popped.walked.space popped.walked.limit
        popped.sample_value popped_stack.at_return popped_stack.callers }
    ensures text { (is : BeginsPoppedStack popped.walked.space popped.walked.limit
        popped.sample_value popped_stack.at_return popped_stack.callers) →
        popped_text popped.walked popped.earlier popped.sample_value popped_stack.at_return
        popped_stack.callers is ≡ codes "ab;a.out+0x1000;a.out+0x1000;[popped]" }
    ensures front { BeginsKnownFront popped.walked.space popped.walked.limit popped.sample_value
        popped_stack.at_return (popped_stack.in_body ∷ []) }
{}

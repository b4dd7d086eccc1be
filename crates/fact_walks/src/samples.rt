//! A small program whose stack is walked from stops in a prologue, in an epilogue, and in a part of
//! a function that lies apart from it.

ghost use Rattle.std.specs.Prelude.{false, true, [], ◌∷◌};
ghost use Rattle.memory_image.specs.Image.{IsLaidOut};
ghost use Rattle.unwind_definitions.specs.Valid.{IsElfChain};
ghost use Rattle.unwind_laws.specs.Pushing as pushing;
ghost use Rattle.frame_facts.specs.FactChains.{IsFactLink};
ghost use Rattle.frame_facts_laws.specs.SampleProgram as sample;
ghost use Rattle.stack_steps.specs.Modules.{AreApart, AreElf};
ghost use Rattle.stack_steps.specs.SpaceViews.{process_of};
ghost use Rattle.stack_walks.specs.KnownWalks.{StartsKnownStack};
ghost use Rattle.fact_walks.specs.Callers.{callers_in};
ghost use Rattle.fact_walks.specs.SampleSpace.{space, in_prologue, in_epilogue, in_part, outside};

/// What the clause `known` of [`step`](stack_steps::step) asks of a frame is met in a prologue, after
/// a push and a move to the register that was pushed, where another push follows; in an epilogue
/// after two pops; in a part of a function that lies apart from it; at a call whose arguments were
/// pushed; in a frame that was realigned; and in `_start` as the C library's `crt1.o` has it.
pub fn frames_of_each_kind_are_known()
    ensures prologue { IsFactLink (process_of space) true sample.overwritten
        (record { facts = sample.known_overwritten; caller = sample.in_part }) }
    ensures epilogue { IsFactLink (process_of space) true sample.popped
        (record { facts = sample.known_popped; caller = sample.in_part }) }
    ensures part { IsFactLink (process_of space) false sample.in_part
        (record { facts = sample.known_in_part; caller = sample.in_many }) }
    ensures pushed_arguments { IsFactLink (process_of space) false sample.in_pushes
        (record { facts = sample.known_in_pushes; caller = sample.in_aligned }) }
    ensures realigned { IsFactLink (process_of space) false sample.in_aligned
        (record { facts = sample.known_in_aligned; caller = sample.in_libc_start }) }
    ensures start { IsFactLink (process_of space) false sample.in_start
        (record { facts = sample.known_in_start; caller = sample.outside }) }
{}

/// A walk may start where the program was stopped in its prologue, after a register was overwritten,
/// where it was stopped in its epilogue, after two pops, and at a call from a part of a function
/// that lies apart from it. It goes on through pushed arguments and an aligned frame to `_start`; the
/// limit may be as low as 9, and 8 from the call. Outside of `_start` there is a stack without a
/// caller, also where it was interrupted.
pub fn walks_from_stops_begin_known_stacks()
    ensures laid_out { IsLaidOut 0 space.image }
    ensures apart { AreApart 0 space.modules }
    ensures elf { AreElf space.modules }
    ensures prologue { StartsKnownStack space in_prologue 9 true sample.overwritten sample.states }
    ensures epilogue { StartsKnownStack space in_epilogue 9 true sample.popped sample.states }
    ensures part { StartsKnownStack space in_part 8 false sample.in_part
        (callers_in sample.outer_frames) }
    ensures alone { StartsKnownStack space outside 1 true sample.outside [] }
{}

/// What laws of ELF frames ask of a chain over ELF modules alone is met by a call of a function that
/// pushes RBX.
pub fn call_of_a_push_is_a_described_chain()
    ensures { IsElfChain pushing.process (pushing.function ∷ []) pushing.start pushing.calls }
{}

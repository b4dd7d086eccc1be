//! Small programs whose tables say facts and a signal's frame, byte for byte
//! (`examples/frame_layouts.c`, `examples/signal_frame.c`).

ghost use Rattle.std.specs.Prelude.{◌≡◌, ◌≢◌, ◌+◌, ◌∷◌, [], false, true};
ghost use Rattle.frame_facts.specs.Facts.{StandsWith};
ghost use Rattle.frame_facts.specs.FactTables.{AreSaidAt};
ghost use Rattle.frame_facts.specs.FactChains.{chain_states, IsFactChain};
ghost use Rattle.frame_facts.specs.Claims.{SaysClaims};
ghost use Rattle.frame_facts.specs.FactDeliveries.{GoesOnAt, ResumesIn, past};
ghost use Rattle.frame_facts.specs.SignalFrames.{IsSignalFrameAt, SaysSignalFrame, StandsInSignal};
ghost use Rattle.frame_facts.specs.SignalFrames.{linux_signal_frame};
ghost use Rattle.unwind_definitions.specs.Module.{IsElfProcess};
ghost use Rattle.frame_facts_laws.specs.SampleProgram as sample;
ghost use Rattle.frame_facts_laws.specs.SignalProgram as signals;

/// In a prologue, after a push of RBP and a move to it: RBP's slot holds what the caller has, and
/// the register doesn't any more.
pub fn overwritten_register_is_known()
    ensures said { AreSaidAt sample.process 0x401084 sample.known_overwritten }
    ensures stands { StandsWith sample.image sample.known_overwritten sample.in_part
        sample.overwritten }
    ensures gone { sample.overwritten.rbp ≢ sample.in_part.rbp }
{}

/// In an epilogue, after both pops: the registers are the caller's again, and the row still finds
/// them in their slots.
pub fn popped_registers_are_known()
    ensures said { AreSaidAt sample.process 0x4010a3 sample.known_popped }
    ensures stands { StandsWith sample.image sample.known_popped sample.in_part sample.popped }
{}

/// In the part of a function that the compiler put apart from it, which begins with a whole frame.
pub fn part_is_known()
    ensures said { AreSaidAt sample.process 0x401010 sample.known_in_part }
    ensures stands { StandsWith sample.image sample.known_in_part sample.in_many sample.in_part }
{}

/// At a call whose arguments were pushed in the body.
pub fn pushed_arguments_are_known()
    ensures said { AreSaidAt sample.process 0x401124 sample.known_in_pushes }
    ensures stands { StandsWith sample.image sample.known_in_pushes sample.in_aligned
        sample.in_pushes }
{}

/// In a frame that is aligned, so that its CFA is found by RBP alone.
pub fn aligned_frame_is_known()
    ensures said { AreSaidAt sample.process 0x401152 sample.known_in_aligned }
    ensures stands { StandsWith sample.image sample.known_in_aligned sample.in_libc_start
        sample.in_aligned }
{}

/// In `_start` as the C library's `crt1.o` has it, whose common information entry's own program says
/// that the return address is undefined.
pub fn start_is_known()
    ensures said { AreSaidAt sample.process 0x401050 sample.known_in_start }
    ensures stands { StandsWith sample.image sample.known_in_start sample.outside sample.in_start }
{}

/// A signal's frame, at the code of the GNU C library to which a handler returns, as gcc's bytes
/// describe it (`examples/signal_frame.c`): the state there stands where the kernel put the
/// registers of the state that the signal interrupted.
pub fn signal_frame_is_known()
    ensures process { IsElfProcess signals.process }
    ensures says { SaysSignalFrame linux_signal_frame signals.row_in_restore }
    ensures said { IsSignalFrameAt signals.process 0x40113f linux_signal_frame }
    ensures stands { StandsInSignal signals.image linux_signal_frame signals.in_trapped
        signals.in_restore }
{}

/// Both stops begin chains of facts, through each of these frames and up to the end of the stack.
pub fn stops_begin_fact_chains()
    ensures process { IsElfProcess sample.process }
    ensures prologue { IsFactChain sample.process true sample.overwritten
        (sample.frames_after sample.known_overwritten) }
    ensures epilogue { IsFactChain sample.process true sample.popped
        (sample.frames_after sample.known_popped) }
    ensures part { IsFactChain sample.process false sample.in_part sample.outer_frames }
    ensures states { chain_states sample.in_part sample.outer_frames ≡ sample.states }
{}

/// The frame table says claims on ranges of this code.
pub fn claims_are_said()
    ensures { SaysClaims sample.image sample.home sample.claims }
{}

/// At the call whose two arguments were pushed a frame may go on after a cleanup: past the
/// arguments, where its table says what is known once they are popped, and asks nothing. The
/// program has no such cleanup; the landing pad and its entry in a resume table are made up.
pub fn cleaned_frame_is_known()
    ensures goes_on { GoesOnAt sample.process sample.cleaned sample.in_aligned 0x401128 }
    ensures past { (past sample.cleaned).sp ≡ sample.in_pushes.sp + 16 }
    ensures resumes { ResumesIn sample.process ((0x401127, 0x401128) ∷ []) sample.cleaned
        sample.in_aligned }
{}

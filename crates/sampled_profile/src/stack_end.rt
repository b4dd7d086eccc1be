// Why a stack goes no further, and the words for what is written beside its frames.
ghost use Rattle.std.specs.Prelude.{◌≡◌};
ghost use Rattle.std.specs.Option.{option_map};
ghost use Rattle.sampled_profile.specs.Ends.{end_word, popped_word};

/// Why a stack goes no further, or why there is none.
#[derive(Clone, Copy, Debug, PartialEq, Eq, Hash)]
pub enum StackEnd {
    /// The last frame returns to 0.
    Outermost,
    /// Nothing is known of the last frame's instruction.
    NoTable,
    /// A word that is read isn't mapped, as after the end of the copy.
    Cut,
    /// The step has another fault.
    Refused,
    /// It has as many frames as are written at most.
    Limit,
    /// The sample has no registers.
    NoRegisters,
    /// The registers are those of a program of 32 bits.
    Narrow,
}

impl StackEnd {
    /// The word that stands for it, unless the last frame is the outermost.
    pub(crate) fn word(self) -> Option<&'static str>
        ensures { option_map (λ word. word.now) result ≡ end_word self }
    {
        match self {
            StackEnd::Outermost => None,
            StackEnd::NoTable => Some("[no table]"),
            StackEnd::Cut => Some("[cut]"),
            StackEnd::Refused => Some("[refused]"),
            StackEnd::Limit => Some("[limit]"),
            StackEnd::NoRegisters => Some("[no registers]"),
            StackEnd::Narrow => Some("[32 bits]"),
        }
    }
}

/// The word that says that registers of a stack were kept which were popped.
pub(crate) fn popped_word(popped: bool) -> Option<&'static str>
    ensures { option_map (λ word. word.now) result ≡ popped_word popped }
{
    if popped { Some("[popped]") } else { None }
}

//! The common information entries whose programs were the last to run.

ghost use Rattle.std.specs.Prelude.{◌≡◌, None, Some, true};
ghost use Rattle.eh_frame.specs.Turns.{Turns};

/// Whether the program of a description's common information entry was run for one of those before.
#[derive(Clone, Copy)]
pub(crate) enum CachedCie {
    /// It was the last to run.
    Last,
    /// It was the last before that.
    BeforeLast,
    /// It was neither, and is to run.
    Other,
}

/// The indexes of the last two common information entries whose programs were run.
#[derive(Clone, Copy)]
pub(crate) struct CieCache {
    last: Option<usize>,
    before: Option<usize>,
}

impl CieCache {
    /// None yet.
    pub(crate) fn new() -> CieCache
        ensures { result ≡ record { last = None; before = None } }
    {
        CieCache {
            last: None,
            before: None,
        }
    }

    /// Whether an entry's program was run, which is the last from now on.
    pub(crate) fn move_to(&mut self, cie: usize) -> CachedCie
        ensures { Turns self.old cie result self.new }
    {
        if is_at(self.last, cie) {
            return CachedCie::Last;
        }
        let was_before = is_at(self.before, cie);
        self.before = self.last;
        self.last = Some(cie);
        if was_before {
            CachedCie::BeforeLast
        } else {
            CachedCie::Other
        }
    }
}

// Whether an index is this one.
fn is_at(index: Option<usize>, cie: usize) -> bool
    ensures { result ≡ true → index ≡ Some cie }
{
    match index {
        Some(index) => index == cie,
        None => false,
    }
}

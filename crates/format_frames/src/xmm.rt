// What is written to XMM registers: proofs see it, and it takes no bytes.
ghost use Rattle.std.specs.Prelude.{◌≡◌, ◌∷◌, [], ℕ, List};
ghost use base.Fml.{ftrue};

use std::marker::Model;

/// The writes to XMM registers, the last one first: the number of a register, and its value then.
pub(crate) struct XmmWrites {
    pub(crate) ghost writes: { List (ℕ × ℕ) },
}

impl Model for XmmWrites {
    ghost also_owns = { λ _. ftrue };
}

impl XmmWrites {
    /// No writes yet.
    pub(crate) fn new() -> XmmWrites
        ensures { result.writes ≡ [] }
    {
        XmmWrites {}
    }

    /// Notes a write.
    pub(crate) fn note(&mut self, register: u8, value: u128)
        ensures { self.new.writes ≡ (register, value) ∷ self.old.writes }
    {}
}

impl Drop for XmmWrites {
    fn drop(self) {
        let Self {} = self;
    }
}

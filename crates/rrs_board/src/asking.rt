//! When a driver asks for input. That is its own choice: by the definition of the board a byte may
//! arrive after any step.

ghost use Rattle.std.specs.Prelude.{◌≡◌, ◌+◌, ◌<◌, ◌≤◌, false, not};
ghost use Rattle.std.specs.Bool.{OnTrue, OnFalse};

/// So many looks in a row at LSR or IIR, which find no byte and between which nothing is
/// transmitted, ask for input.
const LOOKS: u32 = 1000;

/// A driver's choice, and what it has seen.
#[derive(Debug, PartialEq, Clone, Copy)]
pub struct Asking {
    /// Whether each `wfi` that waits asks too, and an input that says it is at its end has nothing
    /// yet. Otherwise that is the end of it.
    pub is_polled: bool,
    /// How many looks there were in a row.
    pub looks: u32,
    /// Whether the input is at its end.
    pub has_ended: bool,
}

impl Asking {
    /// A driver that has seen nothing.
    pub fn new(is_polled: bool) -> Asking
        ensures { result ≡ record { is_polled = is_polled; looks = 0; has_ended = false } }
    {
        Asking {
            is_polled,
            looks: 0,
            has_ended: false,
        }
    }

    /// Counts a look, and says whether there were enough.
    pub fn count_look(&mut self) -> bool
        ensures enough { OnTrue result ((1000 ≤ self.old.looks + 1)
            × (self.new ≡ record self.old { looks = 0 })) }
        ensures counted { OnFalse result ((self.old.looks + 1 < 1000)
            × (self.new ≡ record self.old { looks = self.old.looks + 1 })) }
    {
        self.looks = self.looks.saturating_add(1);
        if self.looks < LOOKS {
            return false;
        }
        self.looks = 0;
        true
    }

    /// A byte was transmitted.
    pub fn note_output(&mut self)
        ensures { self.new ≡ record self.old { looks = 0 } }
    {
        self.looks = 0;
    }

    /// The input said that it is at its end, which one that is polled never is.
    pub fn note_end(&mut self)
        ensures { self.new ≡ record self.old { has_ended = not self.old.is_polled } }
    {
        self.has_ended = !self.is_polled;
    }
}

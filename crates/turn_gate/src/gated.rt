ghost use Rattle.std.specs.Prelude.{◌≡◌, ℕ, List, Option, length};

/// A value that can stand in a gate. It stands for histories, which are lists of entries: for more than one where it
/// has given up entries that were written elsewhere.
pub trait Gated {
    /// What a turn adds to the history.
    type Entry;

    /// What no turn changes of the value: which one it is.
    type Kin;

    // The histories that the value stands for.
    ghost stands_for: { Self → List Self.Entry → Type 0 };

    // The last entry of these histories, where the value still has it.
    ghost newest: { Self → Option Self.Entry };

    // What no turn changes.
    ghost kin: { Self → Self.Kin };

    // Numbers that no turn lowers, as of faults that were met or entries that were written elsewhere.
    ghost marks: { Self → List ℕ };

    /// How many entries each history has that the value stands for. It takes no memory.
    fn length(&self) -> u64
        ensures { (history : List Self.Entry) → stands_for self.now history → length history ≡ result };
}

ghost use Rattle.std.specs.Prelude.{◌≡◌, ◌+◌, MatchBool};

use turn_gate::Gated;

/// How many turns were taken. It stands for each history of so many entries, whose entries say nothing more.
#[derive(Drop)]
pub struct Tally {
    pub turns: u64,
}

impl Gated for Tally {
    type Entry = ();

    type Kin = ();

    ghost use Rattle.std.specs.Prelude.{◌≡◌, [], Some, length};

    ghost stands_for = { λ tally history. length history ≡ tally.turns };

    ghost newest = { λ _. Some tt };

    ghost kin = { λ _. tt };

    ghost marks = { λ _. [] };

    fn length(&self) -> u64 {
        self.turns
    }
}

impl Tally {
    /// One turn more, unless there were as many as can be counted.
    pub fn add(&mut self) -> bool
        ensures { MatchBool result (self.new.turns ≡ self.old.turns + 1) (self.new.turns ≡ self.old.turns) }
    {
        match self.turns.checked_add(1) {
            Some(turns) => {
                self.turns = turns;
                true
            }
            None => false,
        }
    }
}

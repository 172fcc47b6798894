// Who is told what happens in a step.
ghost use Rattle.std.specs.Prelude.{◌≡◌, ℕ, List, [], ◌∷◌, OnOk, OnErr};
ghost use Rattle.store_io.specs.Causes.{io_failed};
ghost use Rattle.store_io.specs.Sinks.{Counts};
ghost use Rattle.store_io.specs.Stops.{YesRose};
ghost use Rattle.step_engine.specs.Taken.{Tale, TookForces, TookKick, TookRest, TookPart, Adds, AddsPart};

use nbody_model::{Field, Record};
use store_io::IoErr;

/// A taker of what happens in a step, in order.
pub trait KickOut {
    /// How often a call failed.
    ghost faults: { Self → ℕ };

    /// How often it said yes.
    ghost yes: { Self → ℕ };

    /// What is told of it: what it may have taken since it began, in order.
    ghost took: { Self → Tale };

    /// Further numbers that no call changes.
    ghost fixed: { Self → List ℕ };

    /// Forces were found. Failed comes only where the count of faults rose; after an error they are taken or not.
    fn forced(&mut self, field: &Field) -> Result<(), IoErr>
        ensures ok { OnOk result (Adds (took self.old) (took self.new) (TookForces field.now ∷ [])) }
        ensures err { OnErr result (AddsPart (took self.old) (took self.new) (TookForces field.now)) }
        ensures cause { Counts (io_failed result) (faults self.old) (faults self.new) }
        ensures same_yes { yes self.new ≡ yes self.old }
        ensures same_fixed { fixed self.new ≡ fixed self.old };

    /// A kick was made. Failed comes only where the count of faults rose; after an error it is taken or not.
    fn kicked(&mut self, entry: &Record) -> Result<(), IoErr>
        ensures ok { OnOk result (Adds (took self.old) (took self.new) (TookKick entry.now ∷ [])) }
        ensures err { OnErr result (AddsPart (took self.old) (took self.new) (TookKick entry.now)) }
        ensures cause { Counts (io_failed result) (faults self.old) (faults self.new) }
        ensures same_yes { yes self.new ≡ yes self.old }
        ensures same_fixed { fixed self.new ≡ fixed self.old };

    /// A resting point of this tick was reached: whether to rest there. True only where the count of yes rose.
    fn rested(&mut self, tick: u64) -> bool
        ensures adds { Adds (took self.old) (took self.new) (TookRest tick result ∷ []) }
        ensures yes { YesRose result (yes self.old) (yes self.new) }
        ensures same_faults { faults self.new ≡ faults self.old }
        ensures same_fixed { fixed self.new ≡ fixed self.old };

    /// The fast bodies of a step are known, by their ids, ascending. Failed comes only where the count of faults rose; after
    /// an error they are taken or not.
    fn binned(&mut self, fast: &[u64]) -> Result<(), IoErr>
        ensures ok { OnOk result (Adds (took self.old) (took self.new) (TookPart fast.now ∷ [])) }
        ensures err { OnErr result (AddsPart (took self.old) (took self.new) (TookPart fast.now)) }
        ensures cause { Counts (io_failed result) (faults self.old) (faults self.new) }
        ensures same_yes { yes self.new ≡ yes self.old }
        ensures same_fixed { fixed self.new ≡ fixed self.old };
}

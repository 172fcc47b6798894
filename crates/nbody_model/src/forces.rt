// What finds the forces among bodies.
ghost use Rattle.std.specs.Prelude.{◌≡◌, ℕ, List, IfOk, length};
ghost use Rattle.nbody_model.specs.Bodies.{BodyData, IsValid};
ghost use Rattle.nbody_model.specs.Tables.{Gravity};
ghost use Rattle.nbody_model.specs.Force.{forces};
ghost use Rattle.nbody_model.specs.Covers.{opening_of, interactions};
ghost use Rattle.nbody_model.specs.declared.field.Event.{Event};

use crate::{Body, Field};
use fixed_point::Memory;

/// What finds the forces among bodies. It stands for a setup and perhaps a table, and has further numbers such as how
/// many ranks there are, which no call changes; and it goes on from call to call by a state, a list of numbers.
pub trait Forces {
    /// The setup and the table that it stands for.
    ghost gravity: { Self → Gravity };

    /// The further numbers that no call changes.
    ghost fixed: { Self → List ℕ };

    /// What it goes on from.
    ghost state: { Self → List ℕ };

    /// By a setup and a table and such numbers, among these bodies, from a state, these events may be taken and leave a
    /// state.
    ghost passes: { Gravity → List ℕ → List BodyData → List ℕ → List Event → List ℕ → Type 0 };

    /// The forces among bodies that ascend in id and keep the limits, in their order, and the number of interactions.
    /// It takes what memory it needs by the allocator that it was made with.
    fn force(&mut self, bodies: &[Body]) -> Result<Field, Memory>
        requires { IsValid bodies.now }
        ensures same_gravity { gravity self.new ≡ gravity self.old }
        ensures same_fixed { fixed self.new ≡ fixed self.old }
        ensures forces { IfOk result (λ f. f.forces ≡ forces (gravity self.old) bodies.now) }
        ensures interactions { IfOk result (λ f. f.interactions ≡ length (interactions (opening_of (gravity self.old).setup bodies.now))) }
        ensures passes { IfOk result (λ f. passes (gravity self.old) (fixed self.old) bodies.now (state self.old) f.events (state self.new)) };
}

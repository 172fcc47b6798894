// Forces by the list of bodies.
ghost use Rattle.std.specs.Prelude.{◌≡◌, ◌^◌, ℕ, List, [], All, IfOk, length};
ghost use Rattle.std.specs.Option.{option_copied};
ghost use Rattle.fixed_point.specs.declared.V3.{V3};
ghost use Rattle.fixed_point.specs.Vectors.{IsBelow, origin, sum_of};
ghost use Rattle.nbody_model.specs.Bodies.{IsValid};
ghost use Rattle.nbody_model.specs.Covers.{interactions, opening_of};
ghost use Rattle.nbody_model.specs.Force.{forces};
ghost use Rattle.force_field.specs.Lists.{list_gravity, no_numbers, quiet};

use crate::covers::Grouped;
use crate::nodes::nodes_of;
use crate::on_bodies::forces_on;
use ewald_table::Table;
use fixed_point::Memory;
use model_laws::laws::bodies::keep_limits;
use nbody_model::{Body, Field, Forces, Setup};
use std::alloc::Global;

/// The forces among some bodies that ascend in id and keep the limits, in their order, and the number of interactions, with no
/// events.
fn field_of(
    alloc: Global,
    setup: &Setup,
    table: Option<&Table>,
    bodies: &[Body],
) -> Result<Field, Memory>
    requires { IsValid bodies.now }
    ensures forces { IfOk result (λ f. f.forces ≡ forces (record { setup = setup.now; table = option_copied table.entry }) bodies.now) }
    ensures interactions { IfOk result (λ f. f.interactions ≡ length (interactions (opening_of setup.now bodies.now))) }
    ensures events { IfOk result (λ f. f.events ≡ []) }
    ensures cancel { IfOk result (λ f. sum_of (λ v. v) f.forces ≡ origin) }
    ensures small { IfOk result (λ f. All (IsBelow (2 ^ 118)) f.forces) }
{
    keep_limits(bodies);
    let nodes = nodes_of(alloc, setup, bodies)?;
    let all = Grouped {
        setup,
        table,
        bodies,
        nodes: &nodes,
    };
    let (forces, interactions) = forces_on(alloc, &all)?;
    Ok(Field {
        forces,
        interactions,
        events: Vec::new(alloc),
    })
}

/// Finds forces from the list of bodies, each against each other one: the plain computation, in a time that grows with the square
/// of the number of bodies and in some 6 kilobytes for each. It keeps the allocator that it was made with.
#[derive(Drop)]
pub struct ListField<'a> {
    alloc: Global,
    setup: Setup,
    table: Option<&'a Table>,
}

impl<'a> ListField<'a> {
    /// By a setup, and a table of periodic corrections if there is one.
    pub fn new(alloc: Global, setup: Setup, table: Option<&'a Table>) -> ListField<'a>
        ensures { list_gravity result ≡ record { setup = setup; table = option_copied table.entry } }
    {
        ListField {
            alloc,
            setup,
            table,
        }
    }
}

impl Forces for ListField<'_> {
    ghost gravity = { list_gravity };

    ghost fixed = { no_numbers };

    ghost state = { no_numbers };

    ghost passes = { quiet };

    fn force(&mut self, bodies: &[Body]) -> Result<Field, Memory>
        requires { IsValid bodies.now }
        ensures same_gravity { list_gravity self.new ≡ list_gravity self.old }
        ensures same_fixed { no_numbers self.new ≡ no_numbers self.old }
        ensures forces { IfOk result (λ f. f.forces ≡ forces (list_gravity self.old) bodies.now) }
        ensures interactions { IfOk result (λ f. f.interactions ≡ length (interactions (opening_of (list_gravity self.old).setup bodies.now))) }
        ensures passes { IfOk result (λ f. quiet (list_gravity self.old) (no_numbers self.old) bodies.now (no_numbers self.old) f.events (no_numbers self.new)) }
        ensures cancel { IfOk result (λ f. sum_of (λ v. v) f.forces ≡ origin) }
        ensures small { IfOk result (λ f. All (IsBelow (2 ^ 118)) f.forces) }
    {
        field_of(self.alloc, &self.setup, self.table, bodies)
    }
}

// The forces among some bodies.
use fixed_point::V3;
use std::marker::Model;

/// What an event of the exchange between ranks is. The first four are a rank's own actions, the others the delivery
/// of a message from one rank to another.
#[derive(Clone, Copy, Debug, PartialEq, Eq)]
pub enum EventKind {
    /// A rank makes the tree of its own bodies; the size is the number of its nodes.
    Build,
    /// A rank works off the pairs whose cells are known; the size is the interactions that it counted.
    Walk,
    /// A rank adds the sums of the cells that it is home of; the size is their number.
    Add,
    /// A rank shares the sums of these cells among their members; the size is their number.
    Share,
    /// Own nodes are handed to their home; the size is the number of entries.
    Table,
    /// A cell is asked for; the size is 1.
    Ask,
    /// A cell's sums are handed out; the size is the number of entries.
    Reply,
    /// The sums of forces on cells are handed to their home; the size is the number of cells.
    Sums,
    /// The members of cells are asked for; the size is the number of cells.
    Want,
    /// Members are handed out; the size is the number of pairs of a cell and a body.
    Members,
    /// Shares are handed to the owners of bodies; the size is the number of bodies.
    Parts,
}

/// One event of the exchange: `from` and `to` are the sender and the receiver, or both the rank that acts.
#[derive(Clone, Copy, Debug, PartialEq, Eq)]
pub struct Event {
    pub kind: EventKind,
    pub from: u16,
    pub to: u16,
    pub size: u64,
}

/// The forces among some bodies, in their order, the number of interactions, and the events in which they were found.
#[derive(Debug, Drop)]
pub struct Field {
    pub forces: Vec<V3>,
    pub interactions: u64,
    pub events: Vec<Event>,
}

impl Model for Field {
    ghost use Rattle.nbody_model.specs.Fields.{FieldData};

    ghost Value = { FieldData };

    ghost view = { λ f. record { forces = f.forces.items; interactions = f.interactions; events = f.events.items } };
}

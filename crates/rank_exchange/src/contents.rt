// What messages carry.
use cell_space::Cell;
use fixed_point::V3;
use home_cells::Entry;
use std::marker::Model;

/// A cell with the sum of forces on it.
#[derive(Clone, Copy)]
pub(crate) struct Summed {
    pub(crate) cell: Cell,
    pub(crate) sum: V3,
}

impl Model for Summed {
    ghost use Rattle.rank_laws.specs.Contents.{Summed};

    ghost Value = { Summed };

    ghost view = { λ s. record { cell = s.cell; sum = s.sum } };

    ghost inverse = { λ v. record { cell = v.cell; sum = v.sum } };
}

/// A cell with the id and the mass of a body in it.
#[derive(Clone, Copy)]
pub(crate) struct Listed {
    pub(crate) cell: Cell,
    pub(crate) id: u64,
    pub(crate) mass: u32,
}

impl Model for Listed {
    ghost use Rattle.rank_laws.specs.Contents.{Listed};

    ghost Value = { Listed };

    ghost view = { λ l. record { cell = l.cell; member = (l.id, l.mass) } };

    ghost inverse = { λ v. record { cell = v.cell; id = v.member.0; mass = v.member.1 } };
}

/// The id of a body with the sum of its shares.
#[derive(Clone, Copy)]
pub(crate) struct Given {
    pub(crate) id: u64,
    pub(crate) sum: V3,
}

impl Model for Given {
    ghost use Rattle.rank_laws.specs.Contents.{Given};

    ghost Value = { Given };

    ghost view = { λ g. record { id = g.id; sum = g.sum } };

    ghost inverse = { λ v. record { id = v.id; sum = v.sum } };
}

/// What a message carries.
#[derive(Drop)]
pub(crate) enum Load {
    Entries(Vec<Entry>),
    Sums(Vec<Summed>),
    Cells(Vec<Cell>),
    Members(Vec<Listed>),
    Shares(Vec<Given>),
    Cell(Cell),
    Answer(Option<Entry>),
}

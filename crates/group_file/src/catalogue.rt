// Groups, and catalogues of them.
use std::marker::Model;

/// A group of bodies: its label, which is its least id, the mass of its bodies, and their ids, ascending.
#[derive(Drop)]
pub struct Group {
    pub label: u64,
    pub mass: u64,
    pub ids: Vec<u64>,
}

impl Model for Group {
    ghost use Rattle.group_file.specs.Catalogues.{GroupData};

    ghost Value = { GroupData };

    ghost view = { λ g. record { label = g.label; mass = g.mass; ids = g.ids.items } };
}

/// Groups, ascending by label.
#[derive(Drop)]
pub struct Catalogue {
    pub groups: Vec<Group>,
}

impl Model for Catalogue {
    ghost use Rattle.std.specs.Prelude.{List};
    ghost use Rattle.group_file.specs.Catalogues.{GroupData};

    ghost Value = { List GroupData };

    ghost view = { λ c. c.groups.items };
}

// Links from the groups of one catalogue to those of another.
use std::marker::Model;

/// A group's label, the label of its descendant or none, how many ids they share, and whether the group is the main one
/// of those with this descendant.
#[derive(Clone, Copy, Debug, PartialEq, Eq)]
pub struct Link {
    pub label: u64,
    pub descendant: Option<u64>,
    pub shared: u64,
    pub main: bool,
}

/// The links of a catalogue's groups, in the order of the catalogue.
#[derive(Drop)]
pub struct LinkList {
    pub links: Vec<Link>,
}

impl Model for LinkList {
    ghost use Rattle.std.specs.Prelude.{List};
    ghost use Rattle.merger_links.specs.declared.link.Link.{Link};

    ghost Value = { List Link };

    ghost view = { λ l. l.links.items };
}

// What is known, and told, of cells.
ghost use Rattle.std.specs.Prelude.{◌≡◌, ◌<◌};
ghost use Rattle.rank_walk.specs.Slots.{held};

use node_moments::Moments;

/// What is known of a cell: its moments, or none of the root where there are no bodies, and which of its children have members, a bit
/// each.
#[derive(Drop)]
pub struct Known {
    pub moments: Option<Moments>,
    pub below: u8,
}

impl Known {
    /// Whether it is that of a leaf: a cell without members is one.
    pub(crate) fn is_leaf(&self) -> bool
        ensures { result ≡ (held self.now.moments).leaf }
    {
        match &self.moments {
            Some(moments) => moments.leaf,
            None => true,
        }
    }

    /// The moments of a cell that has members.
    pub(crate) fn node(&self) -> &Moments
        requires { 0 < (held self.now.moments).mass }
        ensures { result.now ≡ held self.now.moments }
    {
        match &self.moments {
            Some(moments) => moments,
            None => unreachable!(),
        }
    }
}

/// What a rank is told of a cell: what is known of it, if the rank is its home; whether the rank lies in its span; its
/// home; and its first key.
#[derive(Drop)]
pub struct Told {
    pub known: Option<Known>,
    pub mine: bool,
    pub home: u16,
    pub first: u128,
}

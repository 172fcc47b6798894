// The depths of the bodies at a resting point.
ghost use Rattle.std.specs.Prelude.{◌≡◌, ◌<◌, length, slice_index};

use std::marker::Model;

/// How deep each body of a set is at a resting point, in the order of the set: in how many of the unfinished steps it is
/// one of the fast bodies.
#[derive(Debug, Drop)]
pub struct Depths {
    list: Vec<u8>,
}

impl Model for Depths {
    ghost use Rattle.std.specs.Prelude.{List, ℕ};

    ghost Value = { List ℕ };

    ghost view = { λ d. d.list.items };
}

impl Depths {
    /// These depths. It takes no memory.
    pub fn from_list(list: Vec<u8>) -> Depths
        ensures { result ≡ list.items }
    {
        Depths { list }
    }

    /// How many there are.
    pub fn len(&self) -> usize
        ensures { result ≡ length self.now }
    {
        self.list.len()
    }

    /// The depth of the body at a place, counted from 0.
    pub fn get(&self, i: usize) -> u8
        requires { i < length self.now }
        ensures { result ≡ slice_index self.now i }
    {
        self.list[i]
    }
}

// Bodies of which one's motion is lent.
ghost use Rattle.std.specs.Prelude.{◌<◌, length};
ghost use Rattle.std.specs.Borrow.{sem};
ghost use Rattle.particle_set.specs.Lent.{IsMotionAt, LendsHeld};

use nbody_model::{Body, Motion};

/// Bodies in a list, with no order asked of them: what is written through a lent motion keeps all that is asked here, and
/// a set shows by itself that it keeps what is asked there.
#[derive(Drop)]
pub(crate) struct Bodies {
    pub(crate) list: Vec<Body>,
}

impl Bodies {
    /// The motion of the body at a place.
    pub(crate) fn motion(&mut self, i: usize) -> &mut Motion
        requires { i < length self.old.list.items }
        ensures* writes { sem 𝓛 (LendsHeld self.entry i result) }
        ensures value { IsMotionAt self.old.list.items i result.now }
    {
        let body = &mut self.list[i];
        &mut body.motion
    }
}

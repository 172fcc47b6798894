// What files have room for.
ghost use Rattle.std.specs.Prelude.{All};
ghost use Rattle.particle_set.specs.Stored.{IsStorable};

use nbody_model::Body;

fn is_storable(body: &Body)
    ensures { IsStorable body.now }
{
    let _position = body.motion.pos();
    let _momentum = body.motion.mom();
    let _id = body.id;
    let _kind = body.kind;
    let _mass = body.mass;
}

/// A file has room for each of these bodies. It reads each once.
pub fn are_storable(bodies: &[Body])
    ensures { All IsStorable bodies.now }
{
    for body in bodies {
        is_storable(body);
    }
}

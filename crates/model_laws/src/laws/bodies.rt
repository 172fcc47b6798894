// What each list of bodies keeps.
ghost use Rattle.std.specs.Prelude.{◌≤◌};
ghost use Rattle.std.specs.List.{AllByRecursion};
ghost use Rattle.nbody_model.specs.Bodies.{IsValid};
ghost use Rattle.model_laws.specs.Laws.{AreBodies, KeepsLimits};

use nbody_model::Body;

/// Bodies that ascend in id and keep the limits have kinds of at most 5 and masses of at least 1 and lie in the
/// box, as every body does. It reads each body once.
pub fn keep_limits(bodies: &[Body])
    requires { IsValid bodies.now }
    ensures bodies { AreBodies bodies.now }
    ensures kinds { AllByRecursion (λ b. b.kind ≤ 5) bodies.now }
{
    for body in bodies {
        keeps_limits(body);
    }
}

fn keeps_limits(body: &Body)
    ensures { KeepsLimits body.now }
{
    let _value = body.motion.pos();
    let _mass = body.mass;
}

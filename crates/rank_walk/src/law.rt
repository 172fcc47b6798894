// How two nodes act on each other.
ghost use Rattle.std.specs.Prelude.{◌≡◌, ◌≤◌, ◌+◌, ◌^◌, ◌&&◌, IsTrue};
ghost use Rattle.fixed_point.specs.Vectors.{IsAtMost};
ghost use Rattle.nbody_model.specs.PairForce.{pair};
ghost use Rattle.nbody_model.specs.Tables.{Gravity};
ghost use Rattle.pair_law.specs.Conditions.{is_final};
ghost use Rattle.pair_law.specs.Laws.{AnswersBy};
ghost use Rattle.rank_walk.specs.Laws.{MayPull};

use fixed_point::V3;
use node_moments::Moments;

/// What decides whether two nodes act on each other as wholes, and what finds their force: two closures.
#[derive(Drop)]
pub struct NodeLaw<A, F> {
    pub accept: A,
    pub force: F,
}

/// Whether both are leaves.
fn both_leaves(a: &Moments, b: &Moments) -> bool
    ensures { result ≡ (a.now.leaf && b.now.leaf) }
{
    a.leaf && b.leaf
}

impl<A: Fn(&Moments, &Moments) -> bool, F: Fn(&Moments, &Moments) -> V3> NodeLaw<A, F> {
    /// Whether the two nodes act on each other as wholes.
    pub(crate) fn is_final(&self, a: &Moments, b: &Moments) -> bool
        requires law { (g : Gravity) × AnswersBy A.Fn F.Fn self.now.accept self.now.force g }
        ensures { (g : Gravity) → AnswersBy A.Fn F.Fn self.now.accept self.now.force g → result ≡ is_final g.setup a.now b.now }
    {
        if both_leaves(a, b) {
            return true;
        }
        (self.accept)(a, b)
    }

    /// The force on the first.
    pub(crate) fn pull(&self, a: &Moments, b: &Moments) -> V3
        requires law { (g : Gravity) × (AnswersBy A.Fn F.Fn self.now.accept self.now.force g × MayPull g a.now b.now) }
        ensures value { (g : Gravity) → AnswersBy A.Fn F.Fn self.now.accept self.now.force g → result ≡ pair g a.now b.now }
        ensures bound { IsAtMost (2 ^ 86) result }
    {
        (self.force)(a, b)
    }
}

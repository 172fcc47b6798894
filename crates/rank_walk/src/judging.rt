// What is done with a pair.
ghost use Rattle.std.specs.Prelude.{◌≡◌, ◌<◌, ◌≤◌, ◌+◌, ◌^◌, ◌==◌, false, length};
ghost use Rattle.pair_law.specs.Laws.{AnswersBy};
ghost use Rattle.rank_walk.specs.Slots.{AreFair, AreFit, judge, judge_known, slot_at};
ghost use Rattle.rank_walk.specs.Walked.{IsSmall};

use crate::places::Places;
use crate::slot::{Slot, known_at};
use crate::verdict::Verdict;
use crate::{NodeLaw, Source};
use fixed_point::V3;
use node_moments::Moments;

/// What is done with a pair of different known cells: `at_a` and `at_b` say whether the rank is their home. The source
/// says by what gravity the law answers.
fn of_two<A: Fn(&Moments, &Moments) -> bool, F: Fn(&Moments, &Moments) -> V3, S: Source>(
    law: &NodeLaw<A, F>,
    source: &S,
    a: &Moments,
    at_a: bool,
    b: &Moments,
    at_b: bool,
) -> Verdict
    requires light { a.now.mass + b.now.mass ≤ 2 ^ 32 }
    requires law { AnswersBy A.Fn F.Fn law.now.accept law.now.force (S.gravity source.now) }
    requires fair { AreFair (S.gravity source.now) a.now b.now }
    ensures value { result ≡ judge_known (S.gravity source.now) false a.now at_a b.now at_b }
    ensures small { IsSmall result }
{
    if !law.is_final(a, b) {
        return Verdict::Opens;
    }
    let (first, second) = (a.cell, b.cell);
    if second.before(&first) {
        if at_b {
            Verdict::Counts(true, law.pull(b, a))
        } else {
            Verdict::Drops
        }
    } else {
        if at_a {
            Verdict::Counts(false, law.pull(a, b))
        } else {
            Verdict::Drops
        }
    }
}

/// What is done with the pair at two places.
#[tactic(auto, unfolding(crate::specs::Slots::judge))]
pub(crate) fn judged<A: Fn(&Moments, &Moments) -> bool, F: Fn(&Moments, &Moments) -> V3, S: Source>(
    law: &NodeLaw<A, F>,
    source: &S,
    slots: &[Slot],
    x: Places,
) -> Verdict
    requires first { x.a < length slots.now }
    requires second { x.b < length slots.now }
    requires law { AnswersBy A.Fn F.Fn law.now.accept law.now.force (S.gravity source.now) }
    requires fit { (x.a == x.b) ≡ false → AreFit (S.gravity source.now) (slot_at slots.now x.a).moments (slot_at slots.now x.b).moments }
    ensures value { result ≡ judge (S.gravity source.now) slots.now x }
    ensures small { IsSmall result }
{
    let (first, at_a) = known_at(slots, x.a as usize);
    let (second, at_b) = known_at(slots, x.b as usize);
    let Some(a) = first else {
        return Verdict::Waits;
    };
    let Some(b) = second else {
        return Verdict::Waits;
    };
    if x.a == x.b {
        return if a.is_leaf() {
            Verdict::Drops
        } else {
            Verdict::Opens
        };
    }
    of_two(law, source, a.node(), at_a, b.node(), at_b)
}

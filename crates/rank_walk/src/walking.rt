// A rank's walk over its list.
ghost use Rattle.std.specs.Prelude.{◌≡◌, ◌≤◌, ◌<◌, ◌+◌, ◌*◌, ◌^◌, ◌++◌, ◌∷◌, [], ℕ, List, length, map, reverse, OnOk, IfOk};
ghost use Rattle.fixed_point.specs.Vectors.{IsAtMost};
ghost use Rattle.cell_space.specs.Cells.{CellData};
ghost use Rattle.pair_law.specs.Laws.{AnswersBy};
ghost use Rattle.rank_walk.specs.Slots.{cells, sum_at_place};
ghost use Rattle.rank_walk.specs.Seats.{EachSeat, SomeSeat};
ghost use Rattle.rank_walk.specs.Walked.{IsStepOf, IsWalk, MayStep, MayWalk};

use crate::adding::{count_pair, touch};
use crate::heard::Heard;
use crate::judging::judged;
use crate::opening::open_pair;
use crate::places::{Places, Stack};
use crate::verdict::Verdict;
use crate::{NodeLaw, Source};
use fixed_point::{Memory, V3};
use node_moments::Moments;
use smallvec::SmallVec;
use std::alloc::Global;

/// Does what is to be done with the pair that was taken off the stack.
fn step<A: Fn(&Moments, &Moments) -> bool, F: Fn(&Moments, &Moments) -> V3, S: Source>(
    law: &NodeLaw<A, F>,
    source: &S,
    heard: &mut Heard,
    stack: &mut Stack,
    wait: &mut Vec<Places>,
    count: &mut u64,
    x: Places,
) -> Result<(), Memory>
    requires law { AnswersBy A.Fn F.Fn law.now.accept law.now.force (S.gravity source.now) }
    requires at { SomeSeat (S.serves source.now) (MayStep heard.old (stack.old.items ++ x ∷ []) wait.old.items count.old) }
    ensures at { OnOk result (EachSeat (S.serves source.now) (IsStepOf heard.old stack.old.items x wait.old.items count.old heard.new stack.new.items wait.new.items count.new)) }
{
    match judged(law, source, &heard.slots, x) {
        Verdict::Waits => wait.push(x)?,
        Verdict::Drops => {}
        Verdict::Opens => open_pair(source, heard, stack, x)?,
        Verdict::Counts(turned, force) => {
            count_pair(&mut heard.sums, count, x, turned, force);
            touch(&mut heard.touched, x, turned);
        }
    }
    Ok(())
}

/// The list, the last first.
fn turned(alloc: Global, list: &[Places]) -> Result<Stack, Memory>
    ensures { IfOk result (λ v. v.items ≡ reverse list.now) }
{
    let last_first: Vec<Places> = list.iter().rev().copied().collect(alloc)?;
    Ok(SmallVec::from_slice(alloc, &last_first)?)
}

/// Works off all pairs of a list whose cells are known, and answers those that wait.
pub(crate) fn work_off<
    A: Fn(&Moments, &Moments) -> bool,
    F: Fn(&Moments, &Moments) -> V3,
    S: Source,
>(
    alloc: Global,
    law: &NodeLaw<A, F>,
    source: &S,
    heard: &mut Heard,
    count: &mut u64,
    list: &[Places],
) -> Result<Vec<Places>, Memory>
    requires law { AnswersBy A.Fn F.Fn law.now.accept law.now.force (S.gravity source.now) }
    requires may { SomeSeat (S.serves source.now) (MayWalk heard.old list.now count.old) }
    ensures { IfOk result (λ wait. EachSeat (S.serves source.now) (IsWalk heard.old list.now count.old heard.new wait.items count.new)) }
{
    let mut wait = Vec::new(alloc);
    let mut stack = turned(alloc, list)?;
    while let Some(x) = stack.pop() {
        step(law, source, heard, &mut stack, &mut wait, count, x)?;
    }
    Ok(wait)
}

// Pairs of nodes, and the list of those that a walk has still to look at.
ghost use Rattle.std.specs.Prelude.{◌≡◌, ◌<◌, ◌≤◌, ◌+◌, ◌^◌, ◌++◌, length, map};
ghost use Rattle.smallvec.specs.SmallVec.{HasRoomFor};
ghost use Rattle.dual_walk.specs.Steps.{cross, pair, range, self_pairs};

use smallvec::SmallVec;

/// A pair of nodes, by their places.
#[derive(Clone, Copy, Default)]
pub struct Pair {
    pub a: u32,
    pub b: u32,
}

/// Puts each pair of a node with one of some that stand side by side on the list.
fn push_row(list: &mut SmallVec<Pair, 64>, a: u32, first: u32, number: u32)
    requires room { HasRoomFor list.old number }
    requires ends { first + number < 2 ^ 32 }
    ensures items { list.new.items ≡ list.old.items ++ map (pair a) (range first number) }
    ensures capacity { list.new.capacity ≡ list.old.capacity }
{
    for b in first..first + number {
        list.push_reserved(Pair { a, b });
    }
}

/// Puts each pair of a node of one run and one of another on the list. A run has a place and a length of at most 8.
pub(crate) fn push_cross(list: &mut SmallVec<Pair, 64>, left: (u32, u32), right: (u32, u32))
    requires room { HasRoomFor list.old 64 }
    requires left { left.1 ≤ 8 }
    requires right { right.1 ≤ 8 }
    requires left_ends { left.0 + left.1 < 2 ^ 32 }
    requires right_ends { right.0 + right.1 < 2 ^ 32 }
    ensures items { list.new.items ≡ list.old.items ++ cross (range left.0 left.1) (range right.0 right.1) }
    ensures capacity { list.new.capacity ≡ list.old.capacity }
{
    for d in left.0..left.0 + left.1 {
        push_row(list, d, right.0, right.1);
    }
}

/// Puts each unordered pair of nodes of a run on the list, equal ones included.
pub(crate) fn push_self(list: &mut SmallVec<Pair, 64>, first: u32, number: u32)
    requires room { HasRoomFor list.old 64 }
    requires few { number ≤ 8 }
    requires ends { first + number < 2 ^ 32 }
    ensures items { list.new.items ≡ list.old.items ++ self_pairs (range first number) }
    ensures capacity { list.new.capacity ≡ list.old.capacity }
{
    let end = first + number;
    for d in first..end {
        push_row(list, d, d, end - d);
    }
}

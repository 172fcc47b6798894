// Events that ranks do by themselves: which ranks can act.
ghost use Rattle.std.specs.Prelude.{◌≡◌, ◌<◌, ◌≤◌, length, slice_index_or};
ghost use Rattle.rank_laws.specs.Protocol.{World};
ghost use Rattle.rank_laws.specs.Machine.{Message as MessageOf, Rank as RankOf};
ghost use Rattle.rank_laws.specs.Whole.{Whole};
ghost use Rattle.rank_field.specs.Machines.{HoldsRanks, acting_in, acts_in};

use rank_exchange::Rank;

/// Whether the rank of a number can act.
fn can_act(ranks: &[Rank], number: usize) -> bool
    requires { number < length ranks.now }
    ensures { (w : Whole) (z : World RankOf MessageOf) → HoldsRanks w z ranks.now → result ≡ acts_in w z number }
{
    let rank = &ranks[number];
    rank.acts()
}

/// How many ranks can act.
pub(crate) fn count_acting(ranks: &[Rank]) -> u64
    ensures bound { result ≤ length ranks.now }
    ensures count { (w : Whole) (z : World RankOf MessageOf) → HoldsRanks w z ranks.now → result ≡ length (acting_in w z) }
{
    let mut count: u64 = 0;
    for number in 0..ranks.len() {
        count += u64::from(can_act(ranks, number));
    }
    count
}

/// The rank that can act before which so many can.
pub(crate) fn nth_acting(ranks: &[Rank], n: u64) -> usize
    ensures { (w : Whole) (z : World RankOf MessageOf) → HoldsRanks w z ranks.now → n < length (acting_in w z) → result ≡ slice_index_or (acting_in w z) n 0 }
{
    let mut before: u64 = 0;
    for number in 0..ranks.len() {
        if can_act(ranks, number) {
            if before == n {
                return number;
            }
            before += 1;
        }
    }
    ranks.len()
}

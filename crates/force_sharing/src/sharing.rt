// The shares of a total.
ghost use Rattle.std.specs.Prelude.{◌≡◌, ◌≤◌, ◌<◌, ◌^◌, ◌*◌, ◌+◌, pos, length, map, sum_by, unsigned_abs, ◌+ℤ◌, ◌*ℤ◌};
ghost use Rattle.std.specs.Int.{int_div_euclid, int_rem_euclid};
ghost use Rattle.fixed_point.specs.Vectors.{int_sum_by};
ghost use Rattle.force_sharing.specs.Sharing.{AreMembers, shares_of};
ghost use Rattle.force_sharing.specs.Turns.{share_by};

use crate::Scratch;
use crate::turns::{last_served, left_of, mass_of, turn, write_turns};
use fixed_point::floor_div_mod;

/// The quotient rounded down, and the rest.
fn divided(total: i128, mass: u64) -> (i128, u64)
    requires some { 0 < mass }
    ensures quotient { result.0 ≡ int_div_euclid total (pos mass) }
    ensures rest { result.1 ≡ unsigned_abs (int_rem_euclid total (pos mass)) }
    ensures small { result.1 < mass }
    ensures size { unsigned_abs result.0 * mass ≤ unsigned_abs total + mass }
{
    let (quotient, rest) = floor_div_mod(total, mass as i128);
    (quotient, rest as u64)
}

/// `quotient * mass + more`.
fn scaled(quotient: i128, mass: u32, more: u64) -> i128
    requires { unsigned_abs quotient * mass < 2 ^ 114 }
    ensures { result ≡ quotient *ℤ pos mass +ℤ pos more }
{
    quotient * mass as i128 + more as i128
}

/// The share of a member, where the turns up to the last are served.
#[tactic(auto, using(crate::proofs::Sizes::product_small))]
fn share_by(quotient: i128, s: u64, mass: u64, last: u128, member: (u64, u32)) -> i128
    requires some { 0 < mass }
    requires small { s < 2 ^ 32 }
    requires part { member.1 ≤ mass }
    requires size { unsigned_abs quotient * mass < 2 ^ 114 }
    ensures { result ≡ share_by quotient s mass last member }
{
    let part = s * member.1 as u64 / mass;
    if last < turn(s, mass, member) {
        scaled(quotient, member.1, part)
    } else {
        scaled(quotient, member.1, part + 1)
    }
}

/// Writes the share of each member.
#[tactic(auto, using(crate::proofs::Sizes::one_of))]
fn write_shares(
    quotient: i128,
    s: u64,
    mass: u64,
    last: u128,
    members: &[(u64, u32)],
    out: &mut [i128],
)
    requires some { 0 < mass }
    requires small { s < 2 ^ 32 }
    requires whole { mass ≡ sum_by (λ m. m.1) members.now }
    requires size { unsigned_abs quotient * mass < 2 ^ 114 }
    requires as_long { length out.old ≡ length members.now }
    ensures { out.new ≡ map (share_by quotient s mass last) members.now }
{
    for i in 0..members.len() {
        out[i] = share_by(quotient, s, mass, last, members[i]);
    }
}

/// Makes `out` the members' shares in a total, which add up to it. A member is an id and a mass; whose part
/// leaves the greatest rest when rounded down gets the next of what is left, of equal rests the smaller id.
/// It takes time of n log n at most, and no memory.
pub fn share(total: i128, members: &[(u64, u32)], out: &mut [i128], scratch: &mut Scratch)
    requires members { AreMembers members.now }
    requires size { unsigned_abs total < 2 ^ 112 }
    requires as_long { length out.old ≡ length members.now }
    requires room { length members.now ≤ scratch.old }
    ensures shares { out.new ≡ shares_of members.now total }
    ensures sum { int_sum_by (λ n. n) out.new ≡ total }
    ensures room { scratch.new ≡ scratch.old }
{
    let mass = mass_of(members);
    let (quotient, s) = divided(total, mass);
    let turns = &mut scratch.turns[..members.len()];
    write_turns(s, mass, members, turns);
    let left = left_of(s, mass, members);
    let last = last_served(turns, left);
    write_shares(quotient, s, mass, last, members, out);
}

// In which order the members are served.
ghost use Rattle.std.specs.Prelude.{◌≡◌, ◌≤◌, ◌<◌, ◌^◌, ◌*◌, ◌/◌, ◌+◌, ◌-◌, length, sum_by, count_by, nat_lt, not, ℕ, map, All};
ghost use Rattle.force_sharing.specs.Turns.{turn};

/// When a member is served.
pub(crate) fn turn(s: u64, mass: u64, member: (u64, u32)) -> u128
    requires some { 0 < mass }
    requires small { s < 2 ^ 32 }
    ensures value { result ≡ turn s mass member }
    ensures id { member.0 < 2 ^ 64 }
{
    let rest = s * member.1 as u64 % mass;
    (mass - rest) as u128 * (1u128 << 64) + member.0 as u128
}

/// What the parts, all rounded down, take of `s`.
pub(crate) fn taken(s: u64, mass: u64, members: &[(u64, u32)]) -> u128
    requires some { 0 < mass }
    requires small { s < 2 ^ 32 }
    requires few { length members.now ≤ 2 ^ 20 }
    ensures { result ≡ sum_by (λ m. s * m.1 / mass) members.now }
{
    let mut taken = 0u128;
    for member in members {
        taken += (s * member.1 as u64 / mass) as u128;
    }
    taken
}

/// The mass of all members.
pub(crate) fn mass_of(members: &[(u64, u32)]) -> u64
    requires { sum_by (λ m. m.1) members.now ≤ 2 ^ 32 }
    ensures { result ≡ sum_by (λ m. m.1) members.now }
{
    members.iter().map(|m| m.1 as u64).sum()
}

/// Writes down when each member is served.
pub(crate) fn write_turns(s: u64, mass: u64, members: &[(u64, u32)], turns: &mut [u128])
    requires some { 0 < mass }
    requires small { s < 2 ^ 32 }
    requires as_long { length turns.old ≡ length members.now }
    ensures turns { turns.new ≡ map (turn s mass) members.now }
    ensures ids { All (λ m. m.0 < 2 ^ 64) members.now }
{
    for i in 0..members.len() {
        turns[i] = turn(s, mass, members[i]);
    }
}

/// The last turn that is served, if the first `left` turns are; 0 if none is.
pub(crate) fn last_served(turns: &mut [u128], left: usize) -> u128
    requires { left ≤ length turns.old }
    ensures cut { (n : ℕ) → 0 < n → nat_lt (count_by (λ t. nat_lt t n) turns.old) left ≡ not (nat_lt result n) }
    ensures as_long { length turns.new ≡ length turns.old }
{
    if left == 0 {
        return 0;
    }
    let (_, last, _) = turns.select_nth_unstable(left - 1);
    *last
}

/// What the parts, all rounded down, leave of `s`.
#[tactic(auto, using(crate::proofs::Sizes::left_bounds))]
pub(crate) fn left_of(s: u64, mass: u64, members: &[(u64, u32)]) -> usize
    requires some { 0 < mass }
    requires small { s < 2 ^ 32 }
    requires few { length members.now ≤ 2 ^ 20 }
    requires whole { mass ≡ sum_by (λ m. m.1) members.now }
    ensures value { result ≡ s - sum_by (λ m. s * m.1 / mass) members.now }
    ensures few { result ≤ length members.now }
{
    (s as u128 - taken(s, mass, members)) as usize
}

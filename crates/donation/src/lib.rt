// Step 4 of a plan, on plain numbers: who takes, what the members of a set have together, and each leaf's share once
// donors keep no more than their targets. The caller says who is active and who donates; nothing here knows of rows.
#![tactic(auto)]

ghost use Rattle.std.specs.Prelude.{◌≡◌, true, false, cond, ◌*◌, ◌^◌, ◌≤◌, ◌<◌};
ghost use Rattle.rules.specs.Words.{has as member, set_of, table};
ghost use Rattle.rules.specs.Units.{floor_of};
ghost use Rattle.rules.specs.Plan.{is_taker, is_donation, sum_over, share_given, donated as donated_of};
ghost use Rattle.donation.specs.Donation.{Donation, Parts};

use sets::{has, lowest};

// What the members of a set have together: S, D and T are such sums.
fn sum_over(set: u64, shares: &[u32; 64]) -> u64
    ensures { result ≡ sum_over (member set) shares.now }
{
    let mut sum: u64 = 0;
    // Kept (point 3): document 01 asks for sums that test a shifted bit; n is the number of a node, from 1 on.
    for n in 1..64usize {
        if has(set, n) {
            sum += u64::from(shares[n]);
        }
    }
    sum
}

// The takers are the active leaves that are no donors.
#[tactic(auto, using(rules::proofs::Laws::Sets::less_bits), unfolding(rules::specs::Plan::is_taker))]
fn takers(active: u64, donors: u64) -> u64
    ensures { result ≡ set_of (is_taker active donors) }
{
    (active | donors) ^ donors
}

// "With no donor or ..": a set of leaves is 0 when it has no member.
#[tactic(auto, using(crate::proofs::Rest::both_some))]
pub fn is_donation(active: u64, donors: u64) -> bool
    requires { (member active 0 ≡ false) × (member donors 0 ≡ false) }
    ensures { result ≡ is_donation active donors }
{
    (donors != 0) & (takers(active, donors) != 0)
}

// What non-donors get their part of: left is S - T, and kept is S - D.
#[derive(Clone, Copy)]
struct Quota {
    left: u64,
    kept: u64,
    ghost left_most: { left ≤ 2 ^ 30 },
    ghost some_kept: { 0 < kept },
}

impl Quota {
    // "each non-donor gets .."
    fn taken(self, base: u32) -> u32
        requires { floor_of (base * self.left) self.kept < 2 ^ 32 }
        ensures { result ≡ floor_of (base * self.left) self.kept }
    {
        (u64::from(base) * self.left / self.kept) as u32
    }

    // "donors get ..", and an idle leaf gets nothing: a leaf's share before what remains is handed out.
    fn floored(self, donor: bool, active: bool, base: u32, target: u32) -> u32
        requires { donor ≡ false → active ≡ true → floor_of (base * self.left) self.kept < 2 ^ 32 }
        ensures { result ≡ cond donor target (cond active (floor_of (base * self.left) self.kept) 0) }
    {
        if donor {
            target
        } else if active {
            self.taken(base)
        } else {
            0
        }
    }
}

// Who is active, who of them donates, and the base share and the target of each leaf.
// Kept (point 6): nothing here is on a heap: shares stand by the nodes' numbers, in arrays as the state has them.
#[derive(Clone, Copy)]
pub struct Giving<'a> {
    pub active: u64,
    pub donors: u64,
    pub bases: &'a [u32; 64],
    pub targets: &'a [u32; 64],
}

impl<'a> Giving<'a> {
    fn takers(&self) -> u64
        ensures { result ≡ set_of (is_taker self.now.active self.now.donors) }
    {
        takers(self.active, self.donors)
    }

    pub fn is_donation(&self) -> bool
        requires { (member self.now.active 0 ≡ false) × (member self.now.donors 0 ≡ false) }
        ensures { result ≡ is_donation self.now.active self.now.donors }
    {
        is_donation(self.active, self.donors)
    }

    // The shares of all leaves before what remains is handed out.
    fn floors(&self, quota: Quota) -> [u32; 64]
        requires { Parts self.now.active self.now.donors quota.kept self.now.bases.now }
        ensures { result ≡ table (share_given self.now.active self.now.donors quota.left quota.kept 0 self.now.bases.now self.now.targets.now) }
    {
        let mut shares = [0u32; 64];
        for (n, share) in shares.iter_mut().enumerate() {
            *share = quota.floored(
                has(self.donors, n),
                has(self.active, n),
                self.bases[n],
                self.targets[n],
            );
        }
        shares
    }

    // "Else with S ..": a quotient for each taker is worked out once, and "what remains .." is what these leave of S - T.
    pub fn donated(&self) -> [u32; 64]
        requires { Donation self.now.active self.now.donors self.now.bases.now self.now.targets.now }
        ensures { result ≡ donated_of self.now.active self.now.donors self.now.bases.now self.now.targets.now }
    {
        let sum = sum_over(self.active, self.bases);
        let left = sum - sum_over(self.donors, self.targets);
        let kept = sum - sum_over(self.donors, self.bases);
        let mut shares = self.floors(Quota { left, kept });
        let others = self.takers();
        let rest = (left - sum_over(others, &shares)) as u32;
        let first = lowest(others);
        shares[first] = shares[first] + rest;
        shares
    }
}

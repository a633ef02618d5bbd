// A set of nodes as the bits of a u64: node n is a member when bit n is 1. Every set of leaves and of nodes that the
// controller holds is one; here are its membership and its changes, each of which leaves every other member as it was.
// Kept (point 5): a set is a u64 as `Controller` has it, and a node's number a usize: the rules' `has` takes any number, and a
// type of those below 64 would be made in each loop over nodes, to be opened at the next array or set.
// Kept (point 6): a set is the bits of one number, since there is no heap and the state has fixed memory.
#![tactic(auto)]

ghost use Rattle.std.specs.Prelude.{◌≡◌, not, ◌&&◌, ◌||◌, ◌<◌, eqb};
ghost use Rattle.rules.specs.Words.{has as member, set_of};
ghost use Rattle.std.specs.Iterator.{at_most};
ghost use Rattle.sets.specs.Lowest.{Lowest};
ghost use Rattle.sets.specs.Members.{Steps};

pub fn has(set: u64, n: usize) -> bool
    requires { n < 64 }
    ensures { result ≡ member set n }
{
    (set >> n) & 1 == 1
}

pub fn insert(set: u64, n: usize) -> u64
    requires { n < 64 }
    ensures { result ≡ set_of (λ k. member set k || eqb k n) }
{
    set | (1 << n)
}

// With the bit set first, a node that is no member may be removed too.
pub fn remove(set: u64, n: usize) -> u64
    requires { n < 64 }
    ensures { result ≡ set_of (λ k. member set k && not (eqb k n)) }
{
    let one: u64 = 1 << n;
    (set | one) ^ one
}

// The member with the smallest number, of a set that has any.
pub fn lowest(set: u64) -> usize
    requires { 0 < set }
    ensures { Lowest set result }
{
    u64::trailing_zeros(set) as usize
}

// The members that are still to come, by rising number: each is taken out as it comes.
#[derive(Clone, Copy)]
pub struct Members(pub u64);

impl Iterator for Members {
    type Item = usize;

    ghost next_gives = { λ before member after. Steps before member after };

    ghost remaining = { λ left. at_most left.0 };

    fn next(&mut self) -> Option<usize> {
        if self.0 == 0 {
            return None;
        }
        let member = lowest(self.0);
        self.0 = remove(self.0, member);
        Some(member)
    }
}

// The clock alone: by how much virtual time grows, the clock afterwards, and which times it refuses. Nothing else in a
// tick knows how growth is worked out, nor that anything is left over.
ghost use Rattle.std.specs.Prelude.{◌≡◌};
ghost use Rattle.rules.specs.Tick.{hundredths as hundredths_of, growth as growth_of, advanced as advanced_of};
ghost use Rattle.rules.specs.Refusals.{first_of};
ghost use Rattle.rules.specs.Invariant.{SoundClock};
ghost use Rattle.tick.specs.Clocks.{clock_checks, Near};

use rules::budget::Clock;
use rules::refusals::Refusal;
use rules::units::Virt;

// Refusals 10, 11 and 12: the most that may pass in one tick, and the most that virtual time and E may reach.
const ELAPSED_MOST: u64 = 1000000000;

const VTIME_MOST: u64 = 1152921504606846976;

const SINCE_MOST: u64 = 8589934592;

// A clock, and a time that it can grow to.
#[derive(Clone, Copy)]
pub struct Passing {
    pub clock: Clock,
    pub time: u64,
    ghost near: { Near time clock },
}

impl Passing {
    // "elapsed x vrate + remainder"
    #[tactic(auto, unfolding(rules::specs::Tick::hundredths))]
    fn hundredths(self) -> u64
        ensures { result ≡ hundredths_of self.clock self.time }
    {
        let elapsed = self.time - self.clock.time;
        elapsed * u64::from(self.clock.vrate) + u64::from(self.clock.remainder)
    }

    // "virtual time grows by .."
    #[tactic(auto, unfolding(rules::specs::Tick::growth))]
    pub fn growth(self) -> Virt
        ensures { result ≡ growth_of self.clock self.time }
    {
        Virt(self.hundredths() / 100)
    }

    // The clock at the new time, by a growth that is known; what is left over is worked out here.
    #[tactic(auto, using(crate::proofs::Clocks::vtime_fits, crate::proofs::Clocks::since_fits), unfolding(rules::specs::Tick::left_over, rules::specs::Tick::advanced))]
    pub fn advanced(self, grown: Virt) -> Clock
        requires { grown ≡ growth_of self.clock self.time }
        ensures { result ≡ advanced_of self.time self.clock }
    {
        Clock {
            time: self.time,
            vtime: Virt(self.clock.vtime.0 + grown.0),
            since: Virt(self.clock.since.0 + grown.0),
            remainder: (self.hundredths() % 100) as u8,
            ..self.clock
        }
    }
}

// Refusals 9 to 12. Times are compared by their difference: a time may be any u64.
#[tactic(auto, using(crate::proofs::Clocks::vtime_fits))]
pub fn verdict(clock: Clock, time: u64) -> Result<(), Refusal>
    requires { SoundClock clock }
    ensures { result ≡ first_of (clock_checks time clock) }
{
    if time < clock.time {
        return Err(Refusal::TimeBack);
    }
    if ELAPSED_MOST < time - clock.time {
        return Err(Refusal::TimeFar);
    }
    let grown = Passing { clock, time }.growth();
    if VTIME_MOST < clock.vtime.0 + grown.0 {
        return Err(Refusal::ClockFull);
    }
    if SINCE_MOST < clock.since.0 + grown.0 {
        return Err(Refusal::PlanDue);
    }
    Ok(())
}

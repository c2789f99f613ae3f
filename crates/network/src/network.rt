// What generic code asks of a network.
ghost use Rattle.std.specs.Prelude.{◌≡◌};
ghost use Rattle.network.specs.Networks.{Meaning, LawfulNetwork};
ghost use Rattle.network.specs.Answers.{Answered};

use crate::refusal::Refusal;
use scale::Scale;

// Benches and stations over one scale.
pub trait Network {
    type Over: Scale;

    ghost meaning: { Self → Meaning };

    fn stations(&self) -> usize
        ensures { result ≡ (meaning self.now).stations };

    fn benches(&self) -> usize
        ensures { result ≡ (meaning self.now).benches };

    // Writes the arrival at each station.
    fn arrivals(&self, starts: &[i32], out: &mut [i32]) -> Result<(), Refusal>
        ensures { Answered (meaning self.now).benches (meaning self.now).stations (meaning self.now).arrivals starts.now out.old out.new result };

    // Writes the latest start of each bench that reaches every station by its limit.
    fn latest(&self, limits: &[i32], out: &mut [i32]) -> Result<(), Refusal>
        ensures { Answered (meaning self.now).stations (meaning self.now).benches (meaning self.now).latest limits.now out.old out.new result };

    // The lowest value of the network's scale.
    fn lowest(&self) -> i32
        ensures { result ≡ Self.Over.Scale.algebra.lowest }
    {
        Self::Over::LOWEST
    }

    // The highest value of the network's scale.
    fn highest(&self) -> i32
        ensures { result ≡ Self.Over.Scale.algebra.highest }
    {
        Self::Over::HIGHEST
    }

    ghost lawful: { (n : Self) → LawfulNetwork Self.Over.Scale.algebra (meaning n) };
}

// Putting two networks in series, and asking them.
ghost use Rattle.std.specs.Prelude.{◌≡◌, ◌≢◌, [], ◌∷◌, ◌==◌, replicate};
ghost use Rattle.network.specs.Checks.{check, Makes};
ghost use Rattle.network.specs.Refusals.{number};
ghost use Rattle.network.specs.Kinds.{chained, series_of};
ghost use Rattle.network.specs.SeriesLaw.{series_lawful};

use crate::network::Network;
use crate::refusal::Refusal;
use crate::series::{Series, Unjoined};
use scale::Scale;

impl<A: Network, B: Network<Over = A::Over>> Series<A, B> {
    // Two networks in series, or 12 where the stations of the first are not as many as the benches of the second. A refusal
    // hands both back.
    pub fn new(first: A, second: B) -> Result<Series<A, B>, Unjoined<A, B>>
        ensures { Makes (check 12 ((A.Network.meaning first).stations ≢ (B.Network.meaning second).benches) ∷ []) (λ e. number e.refusal) (λ n. series_of A.Over.Scale.algebra A.Network.meaning B.Network.meaning n ≡ chained (A.Network.meaning first) (B.Network.meaning second)) (λ e. (e.first ≡ first) × (e.second ≡ second)) result }
    {
        if !joins(&first, &second) {
            return Err(Unjoined {
                refusal: Refusal::Lengths,
                first,
                second,
            });
        }
        Ok(Series { first, second })
    }
}

// Whether the arrivals of the first are as many as the starts of the second.
fn joins<A: Network, B: Network<Over = A::Over>>(first: &A, second: &B) -> bool
    ensures { result ≡ ((A.Network.meaning first.now).stations == (B.Network.meaning second.now).benches) }
{
    first.stations() == second.benches()
}

impl<A: Network, B: Network<Over = A::Over>> Network for Series<A, B> {
    type Over = A::Over;

    ghost meaning = { series_of A.Over.Scale.algebra A.Network.meaning B.Network.meaning };

    ghost lawful = { λ n. series_lawful A.Over.Scale.algebra A.Over.Scale.lawful (A.Network.meaning n.first) (B.Network.meaning n.second) (A.Network.lawful n.first) (B.Network.lawful n.second) };

    fn stations(&self) -> usize {
        self.second.stations()
    }

    fn benches(&self) -> usize {
        self.first.benches()
    }

    fn arrivals(&self, starts: &[i32], out: &mut [i32]) -> Result<(), Refusal> {
        let mut room = lowest_starts::<A::Over>();
        self.first
            .arrivals(starts, &mut room[..self.first.stations()])?;
        self.second.arrivals(&room[..self.second.benches()], out)
    }

    // Of the shape of `arrivals`, in the opposite order: a closure for each step would be as long.
    fn latest(&self, limits: &[i32], out: &mut [i32]) -> Result<(), Refusal> {
        let mut room = highest_limits::<A::Over>();
        self.second
            .latest(limits, &mut room[..self.second.benches()])?;
        self.first.latest(&room[..self.first.stations()], out)
    }
}

// Starts that are missing count as the lowest value. A function of its own, so that the value is told by its own definition.
fn lowest_starts<S: Scale>() -> [i32; 32]
    ensures { result ≡ replicate 32 S.Scale.algebra.lowest }
{
    [S::LOWEST; 32]
}

// The same for limits. Those that are missing count as the highest value.
fn highest_limits<S: Scale>() -> [i32; 32]
    ensures { result ≡ replicate 32 S.Scale.algebra.highest }
{
    [S::HIGHEST; 32]
}

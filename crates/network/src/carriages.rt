// Making a carriage, and asking it.
ghost use Rattle.std.specs.Prelude.{◌≡◌};
ghost use Rattle.network.specs.Checks.{Makes};
ghost use Rattle.network.specs.Kinds.{carriage, carriage_of, carriage_checks, uncarried};
ghost use Rattle.network.specs.CarriageLaw.{carriage_lawful};

use crate::carriage::{Carriage, Uncarried};
use crate::network::Network;
use crate::refusal::Refusal;
use crate::stages::{divide, first_absent, multiply};
use arrayvec::ArrayVec;

impl<N: Network> Carriage<N> {
    // One present coefficient a station over a network, or 12, or 6 with the station. A refusal hands the network back.
    pub fn new(below: N, coefficients: &[Option<i32>]) -> Result<Carriage<N>, Uncarried<N>>
        ensures { Makes (carriage_checks N.Over.Scale.algebra (N.Network.meaning below) coefficients.now) uncarried (λ n. carriage_of n ≡ carriage N.Over.Scale.algebra coefficients.now (N.Network.meaning below)) (λ e. e.below ≡ below) result }
    {
        if coefficients.len() != below.stations() {
            return Err(Uncarried {
                refusal: Refusal::Lengths,
                station: None,
                below,
            });
        }
        if let Some(station) = first_absent::<N::Over>(coefficients) {
            return Err(Uncarried {
                refusal: Refusal::Coefficient,
                station: Some(station),
                below,
            });
        }
        Ok(Carriage {
            coefficients: ArrayVec::try_from(coefficients).unwrap(),
            below,
        })
    }
}

impl<N: Network> Network for Carriage<N> {
    type Over = N::Over;

    ghost meaning = { carriage_of };

    ghost lawful = { λ n. carriage_lawful N.Over.Scale.algebra N.Over.Scale.lawful n.coefficients.items (N.Network.meaning n.below) (N.Network.lawful n.below) };

    fn stations(&self) -> usize {
        self.below.stations()
    }

    fn benches(&self) -> usize {
        self.below.benches()
    }

    fn arrivals(&self, starts: &[i32], out: &mut [i32]) -> Result<(), Refusal> {
        self.below.arrivals(starts, out)?;
        multiply::<N::Over>(&self.coefficients, out);
        Ok(())
    }

    fn latest(&self, limits: &[i32], out: &mut [i32]) -> Result<(), Refusal> {
        let size = self.below.stations();
        if limits.len() != size {
            return Err(Refusal::Lengths);
        }
        // a vector of fixed capacity would be made of this array and cut
        let mut room = [0; 32];
        let part = &mut room[..size];
        divide::<N::Over>(&self.coefficients, limits, part);
        self.below.latest(part, out)
    }
}

// Making a straight network, and asking it.
ghost use Rattle.std.specs.Prelude.{◌≡◌, [], ◌∷◌};
ghost use Rattle.network.specs.Checks.{check, Makes};
ghost use Rattle.network.specs.Networks.{Size};
ghost use Rattle.network.specs.Refusals.{number};
ghost use Rattle.network.specs.Answers.{Answered};
ghost use Rattle.network.specs.Kinds.{handed, straight, straight_of};
ghost use Rattle.network.specs.StraightLaw.{straight_lawful};

use crate::hold::hold;
use crate::network::Network;
use crate::refusal::Refusal;
use crate::straight::Straight;
use scale::Scale;
use std::marker::PhantomData;

impl<S: Scale> Straight<S> {
    // As many stations as benches, 1 to 32, or 4.
    pub fn new(size: usize) -> Result<Straight<S>, Refusal>
        ensures { Makes (check 4 (¬ (Size size)) ∷ []) number (λ n. straight_of S.Scale.algebra n ≡ straight S.Scale.algebra size) (λ _. Unit {0}) result }
    {
        if !(1..=32).contains(&size) {
            return Err(Refusal::Size);
        }
        Ok(Straight {
            size,
            scale: PhantomData,
        })
    }

    // Hands a list through.
    fn hand(&self, list: &[i32], out: &mut [i32]) -> Result<(), Refusal>
        ensures { Answered self.now.size self.now.size (handed S.Scale.algebra self.now.size) list.now out.old out.new result }
    {
        if list.len() != self.size || out.len() != self.size {
            return Err(Refusal::Lengths);
        }
        hold::<S>(list, out);
        Ok(())
    }
}

impl<S: Scale> Network for Straight<S> {
    type Over = S;

    ghost meaning = { straight_of S.Scale.algebra };

    ghost lawful = { λ n. straight_lawful S.Scale.algebra S.Scale.lawful n.size n.sized };

    fn stations(&self) -> usize {
        self.size
    }

    fn benches(&self) -> usize {
        self.size
    }

    fn arrivals(&self, starts: &[i32], out: &mut [i32]) -> Result<(), Refusal> {
        self.hand(starts, out)
    }

    fn latest(&self, limits: &[i32], out: &mut [i32]) -> Result<(), Refusal> {
        self.hand(limits, out)
    }
}

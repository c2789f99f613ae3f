// A network that hands its list through.
ghost use Rattle.network.specs.Networks.{Size};

use std::marker::PhantomData;

// As many stations as benches.
#[derive(Drop)]
pub struct Straight<S> {
    pub(crate) size: usize,
    pub(crate) scale: PhantomData<S>,
    ghost sized: { Size size },
}

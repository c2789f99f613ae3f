// The sizes of a plan, as its file gives them.
ghost use Rattle.network.specs.Networks.{Size};

// A number of stations or of benches: 1 to 32.
#[derive(Clone, Copy)]
pub(crate) struct Count {
    pub(crate) number: usize,
    ghost size: { Size number },
}

// Whether starts keep the stations' limits.
ghost use Rattle.std.specs.Prelude.{◌≡◌, zip, int_le};
ghost use Rattle.std.specs.List.{list_all};
ghost use Rattle.network.specs.Answers.{Timed};

use crate::network::Network;
use crate::refusal::Refusal;

// Whether the starts reach every station by its limit. The arrivals are written into an array: a
// vector of fixed capacity would be made of it and cut.
pub fn reaches_in_time<N: Network>(
    network: &N,
    starts: &[i32],
    limits: &[i32],
) -> Result<bool, Refusal>
    ensures { Timed N.Over.Scale.algebra (N.Network.meaning network.now) starts.now limits.now result }
{
    let size = network.stations();
    if limits.len() != size {
        return Err(Refusal::Lengths);
    }
    let mut room = [0; 32];
    let reached = &mut room[..size];
    network.arrivals(starts, reached)?;
    Ok(is_nowhere_above(reached, limits))
}

// Whether each value is at most its limit.
fn is_nowhere_above(values: &[i32], limits: &[i32]) -> bool
    ensures { result ≡ list_all (λ p. int_le p.0 p.1) (zip values.now limits.now) }
{
    values
        .iter()
        .zip(limits)
        .all(|(value, limit)| value <= limit)
}

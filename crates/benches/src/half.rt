// Half a round. A network writes into a slice of an array: a vector of fixed capacity would be made of that array and cut.
ghost use Rattle.std.specs.Prelude.{◌≡◌, length};
ghost use Rattle.model.specs.Plans.{starts, cut, same_list};
ghost use Rattle.benches.specs.Records.{records};
ghost use Rattle.benches.specs.Halves.{hall, LimitedBy, CutBy, RecordsCut};

use crate::hall::Hall;
use crate::rows::cut_rows;
use crate::table::Benches;
use network::{Network, Refusal};

impl<N: Network> Hall<N> {
    // Cuts the starts to what the arrivals of the other side allow. Says whether none changed.
    pub fn cut_by<M: Network<Over = N::Over>>(&mut self, other: &Hall<M>) -> bool
        ensures cut { CutBy (hall other.now) (hall self.old) (hall self.new) result }
        ensures network { self.new.network ≡ self.old.network }
    {
        cut_by(
            &other.network,
            &other.benches,
            &self.network,
            &mut self.benches,
        )
    }
}

// Cuts the starts of `benches` to what the arrivals of the other side allow. Says whether none changed. The networks are only lent,
// and where a size disagrees nothing is cut, and the answer is false.
pub fn cut_by<A: Network, B: Network<Over = A::Over>>(
    leader: &A,
    lead: &Benches,
    follower: &B,
    benches: &mut Benches,
) -> bool
    ensures cut { RecordsCut (A.Network.meaning leader.now) (records lead.now) (B.Network.meaning follower.now) (records benches.old) (records benches.new) result }
    ensures count { length (records benches.new) ≡ length (records benches.old) }
{
    let mut room = [0; 32];
    let limits = &mut room[..benches.count()];
    write_limits(leader, lead, follower, limits).is_ok() && benches.cut(limits)
}

// Writes the latest starts of `follower` at which it arrives no later than `leader` with the starts of `lead`.
fn write_limits<A: Network, B: Network<Over = A::Over>>(
    leader: &A,
    lead: &Benches,
    follower: &B,
    out: &mut [i32],
) -> Result<(), Refusal>
    ensures { LimitedBy (A.Network.meaning leader.now) (starts (records lead.now)) (B.Network.meaning follower.now) out.old out.new result }
{
    let mut room = [0; 32];
    let starts = &mut room[..lead.count()];
    lead.starts(starts)?;
    latest_at(leader, starts, follower, out)
}

// Writes the latest starts of `follower` at which it arrives no later than `leader` with these starts.
fn latest_at<A: Network, B: Network<Over = A::Over>>(
    leader: &A,
    starts: &[i32],
    follower: &B,
    out: &mut [i32],
) -> Result<(), Refusal>
    ensures { LimitedBy (A.Network.meaning leader.now) starts.now (B.Network.meaning follower.now) out.old out.new result }
{
    let mut room = [0; 32];
    let arrivals = &mut room[..leader.stations()];
    leader.arrivals(starts, arrivals)?;
    follower.latest(arrivals, out)
}

impl Benches {
    // Each start becomes the smaller of itself and its limit. Says whether none changed.
    fn cut(&mut self, limits: &[i32]) -> bool
        requires { length (records self.old) ≡ length limits.now }
        ensures table { records self.new ≡ cut (records self.old) limits.now }
        ensures count { length (records self.new) ≡ length (records self.old) }
        ensures rests { result ≡ same_list (starts (records self.old)) (starts (records self.new)) }
    {
        let count = self.count;
        cut_rows(&mut self.rows[0..count], limits)
    }
}

// Asking a table.
ghost use Rattle.std.specs.Prelude.{◌≡◌, ℕ, ◌<◌, ◌&&◌, if◌then◌else◌, None, nat_lt, length};
ghost use Rattle.network.specs.Lists.{at};
ghost use Rattle.table.specs.Cells.{asked, cell_of, table_of};
ghost use Rattle.table.specs.TableLaw.{table_lawful};

use crate::rows::{asked, lower_row, row_arrival};
use crate::table::Table;
use network::{Network, Refusal};
use scale::Scale;

impl<S> Table<S> {
    // The coefficient of a station and a bench, none where there is no such place. Not by `then`, which would give an option of one.
    pub fn cell(&self, station: usize, bench: usize) -> Option<i32>
        ensures { result ≡ (if nat_lt station self.now.stations && nat_lt bench self.now.benches then cell_of self.now station bench else None) }
    {
        if station < self.stations && bench < self.benches {
            self.at_place(station, bench)
        } else {
            None
        }
    }

    // The coefficient of a station and a bench that are there.
    fn at_place(&self, station: usize, bench: usize) -> Option<i32>
        requires station { station < self.now.stations }
        requires bench { bench < self.now.benches }
        ensures { result ≡ cell_of self.now station bench }
    {
        asked(self.cells[station * self.benches + bench])
    }

    // The cells of a station that is there. With `chunks_exact` in its place, an invariant has to say what the iterator has left.
    fn row(&self, station: usize) -> &[i32]
        requires { station < self.now.stations }
        ensures count { length result.now ≡ self.now.benches }
        ensures cells { (bench : ℕ) → bench < self.now.benches → asked (at result.now bench) ≡ cell_of self.now station bench }
    {
        let start = station * self.benches;
        &self.cells[start..start + self.benches]
    }
}

impl<S: Scale> Network for Table<S> {
    type Over = S;

    ghost meaning = { table_of S.Scale.algebra };

    ghost lawful = { λ n. table_lawful S.Scale.algebra S.Scale.lawful n.stations n.benches (cell_of n) n.sized_stations n.sized_benches };

    fn stations(&self) -> usize {
        self.stations
    }

    fn benches(&self) -> usize {
        self.benches
    }

    fn arrivals(&self, starts: &[i32], out: &mut [i32]) -> Result<(), Refusal> {
        if starts.len() != self.benches || out.len() != self.stations {
            return Err(Refusal::Lengths);
        }
        for (i, x) in out.iter_mut().enumerate() {
            *x = row_arrival::<S>(self.row(i), starts);
        }
        Ok(())
    }

    fn latest(&self, limits: &[i32], out: &mut [i32]) -> Result<(), Refusal> {
        if limits.len() != self.stations || out.len() != self.benches {
            return Err(Refusal::Lengths);
        }
        out.fill(S::HIGHEST);
        for (i, limit) in limits.iter().enumerate() {
            lower_row::<S>(self.row(i), *limit, out);
        }
        Ok(())
    }
}

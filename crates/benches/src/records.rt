// The records of a side. To be changed they are lent as `rows[0..count]`: the check has no rule for a `&mut` of `rows[..count]` where
// the struct has ghost fields.
ghost use Rattle.std.specs.Prelude.{◌≡◌, ◌≤◌, ◌^◌, ◌*◌, map, length, take, pos, neg_ℤ, ◌≤ℤ◌, slice_set};
ghost use Rattle.model.specs.Plans.{fallen, spare};
ghost use Rattle.model.specs.Sheets.{fresh_bench};
ghost use Rattle.model.specs.Calls.{adopt_bench};
ghost use Rattle.benches.specs.Records.{records, renew_bench, Got};
ghost use Rattle.benches.specs.Answers.{StartsWritten};

use crate::rows::{put_row, rewrite, sum_room, write_fresh, write_starts};
use crate::table::Benches;
use model::{Bench, Window};
use network::Refusal;

impl Benches {
    // How many benches there are.
    pub fn count(&self) -> usize
        ensures size { result ≡ length (records self.now) }
        ensures few { result ≤ 32 }
    {
        self.count
    }

    // The record of a bench.
    pub fn get(&self, bench: usize) -> Option<Bench>
        ensures { Got (records self.now) bench result }
    {
        self.as_slice().get(bench).copied()
    }

    // Puts another record in the place of a bench's, where there is such a bench.
    pub fn put(&mut self, bench: usize, row: Bench)
        ensures { records self.new ≡ slice_set (records self.old) bench row }
    {
        let count = self.count;
        put_row(&mut self.rows[0..count], bench, row);
    }

    // Writes the starts, or 12.
    pub fn starts(&self, out: &mut [i32]) -> Result<(), Refusal>
        ensures { StartsWritten (records self.now) out.old out.new result }
    {
        if out.len() != self.count {
            return Err(Refusal::Lengths);
        }
        write_starts(self.as_slice(), out);
        Ok(())
    }

    // Whether some start lies below its floor.
    pub fn is_fallen(&self) -> bool
        ensures { result ≡ fallen (records self.now) }
    {
        self.as_slice().iter().any(|b| b.start < b.floor)
    }

    // The sum of start minus floor.
    pub fn spare(&self) -> i64
        ensures value { result ≡ spare (records self.now) }
        ensures low { neg_ℤ (pos (2 ^ 37)) ≤ℤ result }
        ensures high { result ≤ℤ pos (2 ^ 37) }
    {
        sum_room(self.as_slice())
    }

    // Every start at its ceiling.
    pub fn renew(&mut self)
        ensures { records self.new ≡ map renew_bench (records self.old) }
    {
        let renewed = |b: Bench| -> Bench
            ensures { result ≡ renew_bench b }
        { Bench::from(Window::from(b)) };
        let count = self.count;
        rewrite(&mut self.rows[0..count], renewed);
    }

    // Every ceiling at its start.
    pub fn adopt(&mut self)
        ensures { records self.new ≡ map adopt_bench (records self.old) }
    {
        let adopted = |b: Bench| -> Bench
            ensures { result ≡ adopt_bench b }
        { b.adopted() };
        let count = self.count;
        rewrite(&mut self.rows[0..count], adopted);
    }

    // Benches with these windows, the first 32 of them, every start at its ceiling.
    pub fn fresh(windows: &[Window]) -> Benches
        ensures { records result ≡ map fresh_bench (take 32 windows.now) }
    {
        let count = windows.len().min(32);
        let mut benches = Benches {
            rows: [Bench::default(); 32],
            count,
        };
        benches.fill(&windows[..count]);
        benches
    }

    // Every record becomes that of its window at a fresh start.
    fn fill(&mut self, windows: &[Window])
        requires { length windows.now ≡ length (records self.old) }
        ensures { records self.new ≡ map fresh_bench windows.now }
    {
        let count = self.count;
        write_fresh(windows, &mut self.rows[0..count]);
    }
}

// The table of waiting lengths. Place i stands for the offset i + 1 past the payloads in order; an
// entry is 0 where nothing waits, and the payload's length plus 1 where one does.
// (No Option in an entry: C owns the table, and any bits are a state.)
ghost use Rattle.std.specs.Prelude.{◌≡◌, ◌≤◌, ◌<◌, ◌^◌, length, take};
ghost use Rattle.recv.specs.Table.{bytes_in, how_many, run_of};

// How many bytes the payloads of a table hold.
pub(crate) fn bytes_in(table: &[u32]) -> u64
    requires { length table.now ≤ 256 }
    ensures { (result ≡ bytes_in table.now) × (result < 2 ^ 40) }
{
    table
        .iter()
        .map(|entry| entry.saturating_sub(1) as u64)
        .sum()
}

// How many payloads of a table wait.
// (A sum, as of the bytes: `filter(..).count()` tests and jumps at each entry.)
pub(crate) fn how_many(table: &[u32]) -> usize
    requires { length table.now ≤ 256 }
    ensures { result ≡ how_many table.now }
{
    table.iter().map(|entry| (*entry != 0) as u64).sum::<u64>() as usize
}

// How many bytes the payloads at the first `place` places hold.
pub(crate) fn bytes_before(table: &[u32], place: usize) -> u64
    requires { length table.now ≤ 256 }
    ensures { result ≡ bytes_in (take place table.now) }
{
    bytes_in(&table[..place.min(table.len())])
}

// How many payloads wait at the front of a table, one behind the other.
pub(crate) fn run(table: &[u32]) -> usize
    ensures { result ≡ run_of table.now }
{
    table.iter().take_while(|entry| **entry != 0).count()
}

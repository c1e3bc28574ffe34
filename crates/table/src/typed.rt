// Rows that are types: what bytes a row has, and the table of such rows at the front of an area, by a count that may be anything.

ghost use Rattle.std.specs.Prelude.{◌≡◌, ◌+◌, ◌*◌, ◌≤◌, ◌<◌, [], ◌∷◌, ◌++◌, length};
ghost use Rattle.octets.specs.Bytes.{part, splice};
ghost use Rattle.table.specs.Lists.{insert_at, remove_at, replace_at};
ghost use Rattle.table.specs.Rows.{held};
ghost use Rattle.table.specs.Codec.{Codec, CodecLaws, table_of, TableNow};

// A row of N bytes. The functions that change a table take its area, which is lent, and its count, which is a field of another area (the device's or
// the exchange's), and answer the count that it has then.
pub trait Row<const N: usize>: Copy {
    ghost codec: { Codec Self };

    ghost Proper: { Self → Type 0 };

    // The row whose bytes are those of an area from index at on. (At a byte's index, as `put`: by a row's number, what each caller shows of the row's place would
    // only be said otherwise.)
    fn read(area: &[u8], at: usize) -> Self
        requires { at + codec.width ≤ length area.now }
        ensures { result ≡ codec.decode (part area.now at codec.width) };

    fn bytes(self) -> [u8; N]
        ensures value { result ≡ codec.encode self }
        ensures proper { Proper self };

    // Writes the row's bytes into an area, from index at on.
    final fn put(self, area: &mut [u8], at: usize)
        requires { at + codec.width ≤ length area.old }
        ensures { area.new ≡ splice area.old at (codec.encode self) }
    {
        octets::copy_in(area, at, &self.bytes());
    }

    // Puts a row behind the last.
    final fn push(area: &mut [u8], count: usize, row: Self) -> usize
        requires { held (length area.old) codec.width count * codec.width + codec.width ≤ length area.old }
        ensures { TableNow codec area.old (table_of codec count area.old ++ (row ∷ [])) result area.new }
    {
        let n = crate::fit(area.len(), N, count);
        crate::push(area, N, n, &row.bytes())
    }

    // Puts a row in at i: those from i on move up by one.
    final fn insert(area: &mut [u8], count: usize, i: usize, row: Self) -> usize
        requires room { held (length area.old) codec.width count * codec.width + codec.width ≤ length area.old }
        requires place { i ≤ held (length area.old) codec.width count }
        ensures { TableNow codec area.old (insert_at i row (table_of codec count area.old)) result area.new }
    {
        let n = crate::fit(area.len(), N, count);
        crate::insert(area, N, n, i, &row.bytes())
    }

    // Takes row i out.
    final fn remove(area: &mut [u8], count: usize, i: usize) -> usize
        requires { i < held (length area.old) codec.width count }
        ensures { TableNow codec area.old (remove_at i (table_of codec count area.old)) result area.new }
    {
        let n = crate::fit(area.len(), N, count);
        crate::remove(area, N, n, i)
    }

    // Puts a row in place of row i.
    final fn replace(area: &mut [u8], count: usize, i: usize, row: Self) -> usize
        requires { i < held (length area.old) codec.width count }
        ensures { TableNow codec area.old (replace_at i row (table_of codec count area.old)) result area.new }
    {
        let n = crate::fit(area.len(), N, count);
        crate::replace(area, N, n, i, &row.bytes());
        n
    }

    ghost wide: { codec.width ≡ N };

    ghost laws: { CodecLaws codec Proper };
}

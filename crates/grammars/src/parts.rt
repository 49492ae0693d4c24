//! Parts of tables, from a start to an end. What would lie outside of the table is left out.

ghost use Rattle.std.specs.Prelude.{◌≡◌, ◌≤◌, ◌-◌, length, slice_index_or};
ghost use Rattle.grammars.specs.Flat.{part};

/// The part of a table from a start to an end.
#[inline(always)]
pub fn part_of<T>(table: &[T], start: u16, end: u16) -> &[T]
    ensures part { result.now ≡ part table.now start end }
    ensures short { length result.now ≤ end - start }
{
    let end = if (end as usize) < table.len() {
        end as usize
    } else {
        table.len()
    };
    let start = if (start as usize) < end {
        start as usize
    } else {
        end
    };
    &table[start..end]
}

/// The number at a place of a table, or 0.
#[inline(always)]
pub fn number_at(table: &[u16], place: usize) -> u16
    ensures { result ≡ slice_index_or table.now place 0 }
{
    match table.get(place) {
        Some(&number) => number,
        None => 0,
    }
}

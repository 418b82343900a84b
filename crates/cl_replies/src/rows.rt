//! The row of a state whose line has a number.
ghost use Rattle.std.specs.Prelude.{◌≡◌, ◌<◌, ◌+◌, IfOk, map, option_map, take, slice_get, length, Some};
ghost use Rattle.cl_tables.specs.declared.row.StateRow.{StateRow as RowSeen};
ghost use Rattle.cl_tokens.specs.Table.{is_key};
ghost use Rattle.cl_maps.specs.Maps.{key_cmp};
ghost use Rattle.cl_root.specs.RowBytes.{key_bytes};
ghost use Rattle.cl_lines.specs.LineSets.{IsSetOf};
ghost use Rattle.cl_replies.specs.Kept.{lines_of_rows, is_less, IsLineAt, IsLeastOf, IsRowAt};

use cl_lines::row_lines;
use cl_root::row_bytes;
use cl_tables::StateRow;
use cl_types::NoMemory;
use std::alloc::Global;
use std::cmp::Ordering;

/// The lines once more.
fn copies_of(alloc: Global, lines: &[Vec<u8>]) -> Result<Vec<Vec<u8>>, NoMemory>
    ensures { IfOk result (λ copies.
        map (λ line. line.items) copies.items ≡ map (λ line. line.items) lines.now) }
{
    let mut copies = Vec::with_capacity(alloc, lines.len())?;
    for line in lines {
        let copy = Vec::from_slice(alloc, line)?;
        copies.push(copy)?;
    }
    Ok(copies)
}

/// The lines rising, each once.
fn rising(mut lines: Vec<Vec<u8>>) -> Result<Vec<Vec<u8>>, NoMemory>
    ensures { IfOk result (λ set. IsSetOf (map (λ line. line.items) lines.items)
        (map (λ line. line.items) set.items)) }
{
    lines.sort()?;
    lines.dedup();
    Ok(lines)
}

/// The line with this number among lines in rising order, each once.
fn line_at(alloc: Global, lines: &[Vec<u8>], number: u32) -> Result<Option<Vec<u8>>, NoMemory>
    ensures { IfOk result (λ line. IsLineAt (map (λ line. line.items) lines.now) number
        (option_map (λ line. line.items) line)) }
{
    let mut set = rising(copies_of(alloc, lines)?)?;
    let place = number as usize;
    if place < set.len() {
        Ok(Some(set.swap_remove(place)))
    } else {
        Ok(None)
    }
}

/// Whether the key bytes of one row are below those of another.
fn is_below(alloc: Global, row: &StateRow, other: &StateRow) -> Result<bool, NoMemory>
    ensures { IfOk result
        (λ below. below ≡ is_less (key_cmp (key_bytes row.now) (key_bytes other.now))) }
{
    let (key, _) = row_bytes(alloc, row)?;
    let (other_key, _) = row_bytes(alloc, other)?;
    match key.cmp(&other_key) {
        Ordering::Less => Ok(true),
        Ordering::Equal | Ordering::Greater => Ok(false),
    }
}

/// Whether the key bytes of the row at one place are below those at another.
fn is_lower(alloc: Global, rows: &[StateRow], place: usize, other: usize) -> Result<bool, NoMemory>
    requires place { place < length rows.now }
    requires other { other < length rows.now }
    ensures { IfOk result (λ lower. (row old : RowSeen) →
        slice_get rows.now place ≡ Some row → slice_get rows.now other ≡ Some old →
        lower ≡ is_less (key_cmp (key_bytes row) (key_bytes old))) }
{
    is_below(alloc, &rows[place], &rows[other])
}

fn is_line(text: &[u8], line: &[u8]) -> bool
    ensures { result ≡ is_key text.now line.now }
{
    text == line
}

/// Of the rows with this line up to one more, the place of one with the least key bytes.
fn least_with(
    alloc: Global,
    rows: &[StateRow],
    lines: &[Vec<u8>],
    line: &[u8],
    place: usize,
    least: Option<usize>,
) -> Result<Option<usize>, NoMemory>
    requires lines { map (λ line. line.items) lines.now ≡ lines_of_rows rows.now }
    requires here { place < length rows.now }
    requires so_far { IsLeastOf rows.now (take place rows.now) line.now least }
    ensures { IfOk result (λ next. IsLeastOf rows.now (take (place + 1) rows.now) line.now next) }
{
    let is_on_line = is_line(lines[place].as_slice(), line);
    if !is_on_line {
        return Ok(least);
    }
    let Some(other) = least else {
        return Ok(Some(place));
    };
    if is_lower(alloc, rows, place, other)? {
        Ok(Some(place))
    } else {
        Ok(least)
    }
}

/// Of the rows with this line, the place of one with the least key bytes.
fn least_row(
    alloc: Global,
    rows: &[StateRow],
    lines: &[Vec<u8>],
    line: &[u8],
) -> Result<Option<usize>, NoMemory>
    requires { map (λ line. line.items) lines.now ≡ lines_of_rows rows.now }
    ensures { IfOk result (λ least. IsLeastOf rows.now rows.now line.now least) }
{
    let mut least = None;
    for place in 0..rows.len() {
        least = least_with(alloc, rows, lines, line, place, least)?;
    }
    Ok(least)
}

/// The place of the row whose line has this number.
pub(crate) fn row_at(
    alloc: Global,
    rows: &[StateRow],
    number: u32,
) -> Result<Option<usize>, NoMemory>
    ensures { IfOk result (λ place. IsRowAt rows.now number place) }
{
    let lines = row_lines(alloc, rows)?;
    match line_at(alloc, &lines, number)? {
        Some(line) => least_row(alloc, rows, &lines, &line),
        None => Ok(None),
    }
}

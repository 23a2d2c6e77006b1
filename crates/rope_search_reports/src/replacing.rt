//! Rows of a list replaced by others.
ghost use Rattle.std.specs.Prelude.{◌≡◌, ◌+◌, ◌-◌, ◌≤◌, ◌++◌, take, drop, vec_len, vec_capacity};

use crate::rows::Row;

/// Swaps `count` rows of two lists: in `rows` from `first` on, in `made` from the start.
fn swap_rows(rows: &mut Vec<Row>, first: usize, made: &mut Vec<Row>, count: usize)
    requires within { first + count ≤ vec_len rows.old }
    requires made_within { count ≤ vec_len made.old }
    ensures rows { rows.new.items ≡ take first rows.old.items ++ take count made.old.items
        ++ drop (first + count) rows.old.items }
    ensures made { made.new.items ≡ take count (drop first rows.old.items)
        ++ drop count made.old.items }
    ensures len { vec_len rows.new ≡ vec_len rows.old }
    ensures made_len { vec_len made.new ≡ vec_len made.old }
    ensures capacity { vec_capacity rows.new ≡ vec_capacity rows.old }
{
    let place = rows.slice_mut(first..first + count);
    place.swap_with_slice(made.slice_mut(0..count));
}

/// Moves `count` rows from `at` on to the end.
fn move_to_end(rows: &mut Vec<Row>, at: usize, count: usize)
    requires within { at + count ≤ vec_len rows.old }
    ensures rows { rows.new.items ≡ take at rows.old.items ++ drop (at + count) rows.old.items
        ++ take count (drop at rows.old.items) }
    ensures len { vec_len rows.new ≡ vec_len rows.old }
    ensures capacity { vec_capacity rows.old ≤ vec_capacity rows.new }
{
    rows.slice_mut(at..).rotate_left(count);
}

/// Drops `count` rows from `at` on.
fn remove_rows(rows: &mut Vec<Row>, at: usize, count: usize)
    requires within { at + count ≤ vec_len rows.old }
    ensures rows { rows.new.items ≡ take at rows.old.items ++ drop (at + count) rows.old.items }
    ensures capacity { vec_capacity rows.old ≤ vec_capacity rows.new }
{
    move_to_end(rows, at, count);
    rows.truncate(rows.len() - count);
}

/// Inserts the rows of `made` from `from` on before row `at`, and drops the others. Allocates
/// nothing. Requires spare capacity for the inserted rows.
fn insert_rows(rows: &mut Vec<Row>, at: usize, mut made: Vec<Row>, from: usize)
    requires at_within { at ≤ vec_len rows.old }
    requires within { from ≤ vec_len made }
    requires room { vec_len rows.old + (vec_len made - from) ≤ vec_capacity rows.old }
    ensures rows { rows.new.items ≡ take at rows.old.items ++ drop from made.items
        ++ drop at rows.old.items }
    ensures capacity { vec_capacity rows.old ≤ vec_capacity rows.new }
{
    remove_rows(&mut made, 0, from);
    // The rows after `at` go after the inserted ones.
    let behind = rows.len() - at;
    // There is room, so this can't fail.
    let _ = rows.append(&mut made);
    move_to_end(rows, at, behind);
}

/// Replaces rows `first..end` by other rows. Allocates nothing.
///
/// # Requires
///
/// `first <= end`, `end <= rows.len()`, and spare capacity for the rows by which the list grows.
///
/// # Complexity
///
/// Linear in the replaced and the new rows if there are equally many; otherwise the rows after them
/// are moved once.
pub fn replace_rows(rows: &mut Vec<Row>, first: usize, end: usize, mut made: Vec<Row>)
    requires ordered { first ≤ end }
    requires within { end ≤ vec_len rows.old }
    requires room { vec_len rows.old + (vec_len made - (end - first)) ≤ vec_capacity rows.old }
    ensures rows { rows.new.items ≡ take first rows.old.items ++ made.items
        ++ drop end rows.old.items }
    ensures capacity { vec_capacity rows.old ≤ vec_capacity rows.new }
{
    let gone = end - first;
    let common = gone.min(made.len());
    swap_rows(rows, first, &mut made, common);
    if common < gone {
        remove_rows(rows, first + common, gone - common);
    } else if common < made.len() {
        insert_rows(rows, end, made, common);
    }
}

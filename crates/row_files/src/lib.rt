//! Rows that lie in a temporary file, eight bytes each, as PostgreSQL's nodeAgg.c writes the tuples that it spills.
#![tactic(auto)]

ghost use Rattle.std.specs.Prelude.{◌≡◌, ◌+◌, ◌*◌, ◌<◌, ◌↔◌, List, [], ◌∷◌, ◌++◌, length, Err, Some, None, IfOk, OnOk, OnErr, slice_get};
ghost use Rattle.temp_store.specs.Temp.{Changes, file_at, bytes_of, held, risen};
ghost use Rattle.agg_rules.specs.declared.Row.{Row};
ghost use Rattle.agg_rules.specs.declared.TheConstants.{ROW_BYTES};
ghost use Rattle.row_files.specs.RowBytes.{IsRow, row_bytes, HasRows};

use agg_rules::{ROW_BYTES, Row};
use std::alloc::AllocError;
use temp_store::{TempError, TempStore};

/// The eight bytes of a row.
#[tactic(auto, unfolding(crate::specs::RowBytes::row_bytes))]
pub fn row_bytes(row: Row) -> [u8; 8]
    ensures { result ≡ row_bytes row }
{
    let group = row.group.to_le_bytes();
    let value = row.value.to_le_bytes();
    [
        group[0], group[1], group[2], group[3], value[0], value[1], value[2], value[3],
    ]
}

// The row that eight bytes stand for.
fn row_of(bytes: [u8; 8]) -> Row
    ensures { (row : Row) → IsRow row → bytes ≡ row_bytes row → result ≡ row }
{
    Row {
        group: u32::from_le_bytes([bytes[0], bytes[1], bytes[2], bytes[3]]),
        value: u32::from_le_bytes([bytes[4], bytes[5], bytes[6], bytes[7]]),
    }
}

/// Makes a file without rows. It fails for want of memory alone, and changes nothing then.
pub fn make_rows(temp: &mut TempStore) -> Result<u32, AllocError>
    ensures rows { IfOk result (λ file. HasRows temp.new file []) }
    ensures fresh { IfOk result (λ file. file_at temp.old file ≡ None) }
    ensures changes { IfOk result (λ file. Changes temp.old temp.new file (Some [])) }
    ensures held { OnOk result (held temp.new ≡ held temp.old) }
    ensures written { OnOk result (temp.new.written ≡ temp.old.written) }
    ensures err { OnErr result (temp.new ≡ temp.old) }
{
    temp.make()
}

/// Puts a row behind those that a file has.
///
/// `Full` comes exactly where the store would hold more than its limit with eight bytes more, and before `Memory`. A
/// refused call changes nothing.
pub fn spill(temp: &mut TempStore, file: u32, row: Row) -> Result<(), TempError>
    requires { (rows : List Row) × HasRows temp.old file rows }
    ensures rows { OnOk result ((rows : List Row) → HasRows temp.old file rows → HasRows temp.new file (rows ++ row ∷ [])) }
    ensures changes { OnOk result (Changes temp.old temp.new file (Some (bytes_of (file_at temp.old file) ++ row_bytes row))) }
    ensures held { OnOk result (held temp.new ≡ held temp.old + ROW_BYTES) }
    ensures written { OnOk result (temp.new.written ≡ risen temp.old.written ROW_BYTES) }
    ensures full { (result ≡ Err TempError.Full) ↔ (temp.old.limit < held temp.old + ROW_BYTES) }
    ensures err { OnErr result (temp.new ≡ temp.old) }
{
    let bytes = row_bytes(row);
    temp.append(file, &bytes)
}

/// How many rows a file has.
pub fn rows_in(temp: &TempStore, file: u32) -> u64
    requires { (rows : List Row) × HasRows temp.now file rows }
    ensures { (rows : List Row) → HasRows temp.now file rows → result ≡ length rows }
{
    temp.len(file) / u64::from(ROW_BYTES)
}

/// The row of a file at a place, counted from 0.
pub fn row_at(temp: &TempStore, file: u32, place: u32) -> Row
    requires { (rows : List Row) × HasRows temp.now file rows × (place < length rows) }
    ensures { (rows : List Row) → HasRows temp.now file rows → place < length rows → slice_get rows place ≡ Some result }
{
    let mut bytes = [0; 8];
    temp.read(file, u64::from(place) * u64::from(ROW_BYTES), &mut bytes);
    row_of(bytes)
}

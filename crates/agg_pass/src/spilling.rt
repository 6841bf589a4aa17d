//! Rows that go to the file of a pass.
ghost use Rattle.std.specs.Prelude.{◌≡◌, ◌+◌, ◌<◌, ◌≤◌, ◌⊎◌, ◌↔◌, List, [], ◌∷◌, ◌++◌, Some, Err, IfOk, IfErr, OnOk, OnErr};
ghost use Rattle.chunk_header.specs.declared.CtxError.{CtxError};
ghost use Rattle.temp_store.specs.Temp.{held, risen};
ghost use Rattle.agg_rules.specs.declared.Row.{Row};
ghost use Rattle.agg_rules.specs.declared.TheConstants.{ROW_BYTES};
ghost use Rattle.row_files.specs.RowBytes.{HasRows};
ghost use Rattle.agg_pass.specs.Spilled.{Spilled, IsOf, KeepsFiles};

use agg_rules::{NodeError, Row};
use chunk_header::CtxError;
use row_files::{make_rows, spill};
use temp_store::{TempError, TempStore};

/// Why a node can't go on, where its context gave no chunk.
pub fn of_context(refused: CtxError) -> NodeError
    ensures no_space { (result ≡ NodeError.NoSpace) ↔ (refused ≡ CtxError.NoSpace) }
    ensures no_other { (result ≡ NodeError.NoSpace) ⊎ (result ≡ NodeError.Memory) }
{
    match refused {
        CtxError::NoSpace => NodeError::NoSpace,
        _ => NodeError::Memory,
    }
}

// Why a node can't go on, where the store took no row.
fn of_store(refused: TempError) -> NodeError
    ensures full { (result ≡ NodeError.Full) ↔ (refused ≡ TempError.Full) }
    ensures no_other { (result ≡ NodeError.Full) ⊎ (result ≡ NodeError.Memory) }
{
    match refused {
        TempError::Full => NodeError::Full,
        TempError::Memory => NodeError::Memory,
    }
}

// The file of a pass, which is made where there was none.
fn file_of(file: &mut Option<u32>, temp: &mut TempStore) -> Result<u32, NodeError>
    ensures some { IfOk result (λ number. file.new ≡ Some number) }
    ensures rows { IfOk result (λ number. (rows : List Row) → Spilled temp.old file.old rows → HasRows temp.new number rows) }
    ensures others { KeepsFiles (IsOf file.old) temp.old (IsOf file.new) temp.new }
    ensures held { held temp.new ≡ held temp.old }
    ensures written { temp.new.written ≡ temp.old.written }
    ensures limit { temp.new.limit ≡ temp.old.limit }
    ensures refused_file { OnErr result (file.new ≡ file.old) }
    ensures refused_temp { OnErr result (temp.new ≡ temp.old) }
    ensures memory { IfErr result (λ e. e ≡ NodeError.Memory) }
{
    if let Some(number) = *file {
        return Ok(number);
    }
    let Ok(made) = make_rows(temp) else {
        return Err(NodeError::Memory);
    };
    *file = Some(made);
    Ok(made)
}

/// Spills a row: it goes behind those of the file, which is made where there was none.
///
/// `Full` comes where the store has no room for eight bytes more, and `Memory` may come in its place. After a refusal the
/// rows are as they were, but the file may be there, without rows.
pub fn spill_row(file: &mut Option<u32>, temp: &mut TempStore, row: Row) -> Result<(), NodeError>
    requires { (rows : List Row) × Spilled temp.old file.old rows }
    ensures rows { OnOk result ((rows : List Row) → Spilled temp.old file.old rows → Spilled temp.new file.new (rows ++ row ∷ [])) }
    ensures same { OnErr result ((rows : List Row) → Spilled temp.old file.old rows → Spilled temp.new file.new rows) }
    ensures others { KeepsFiles (IsOf file.old) temp.old (IsOf file.new) temp.new }
    ensures room { OnOk result (held temp.old + ROW_BYTES ≤ temp.old.limit) }
    ensures full { (result ≡ Err NodeError.Full) → temp.old.limit < held temp.old + ROW_BYTES }
    ensures no_other { IfErr result (λ e. (e ≡ NodeError.Full) ⊎ (e ≡ NodeError.Memory)) }
    ensures held { OnOk result (held temp.new ≡ held temp.old + ROW_BYTES) }
    ensures held_refused { OnErr result (held temp.new ≡ held temp.old) }
    ensures written { OnOk result (temp.new.written ≡ risen temp.old.written ROW_BYTES) }
    ensures written_refused { OnErr result (temp.new.written ≡ temp.old.written) }
    ensures limit { temp.new.limit ≡ temp.old.limit }
{
    let number = file_of(file, temp)?;
    match spill(temp, number, row) {
        Ok(()) => Ok(()),
        Err(refused) => Err(of_store(refused)),
    }
}

// The table of a strain sheet.
#![tactic(auto)]

ghost use Rattle.std.specs.Prelude.{◌≡◌, ◌*◌, ◌≤◌, length};
ghost use Rattle.refusals.specs.Refusals.{accepted, outcome, written};
ghost use Rattle.packed_tables.specs.Packed.{table_with};
ghost use Rattle.sheet_rules.specs.Sheets.{leaves_of, cells_of};
ghost use Rattle.sheet_tables.specs.Operations.{sheet_table_answer};

use refusals::Refusal;
use sheets::{JudgedSheet, ReadSheet};

mod table;

// Writes the table of a sheet that has been judged, n * n cells, at the front of `out`: room is left to judge, 3. With
// enough of it nothing is refused. For the crates above.
pub fn table_of(sheet: &JudgedSheet, out: &mut [u32]) -> Result<(), Refusal>
    ensures answer { result ≡ outcome (sheet_table_answer sheet.now (length out.old)) }
    ensures buffer { out.new
        ≡ written (sheet_table_answer sheet.now (length out.old)) out.old }
    ensures made { leaves_of sheet.now * leaves_of sheet.now ≤ length out.old
        → (result ≡ Ok tt)
        × (out.new ≡ written (accepted (table_with (leaves_of sheet.now) (cells_of sheet.now))) out.old) }
{
    let n = sheet.leaves();
    let cells = sheet.cells();
    if out.len() < n * n {
        return Err(Refusal::OutputRoom);
    }
    table::write_table(n, cells, out);
    Ok(())
}

// Writes the table of a sheet: 13, 1, 14, 3, 15, 16.
pub fn sheet_table(sheet: &[u8], out: &mut [u32]) -> Result<(), Refusal>
    ensures answer { result ≡ outcome (sheet_table_answer sheet.now (length out.old)) }
    ensures buffer { out.new
        ≡ written (sheet_table_answer sheet.now (length out.old)) out.old }
{
    let sheet = ReadSheet::new(sheet);
    let n = sheet.figures().leaves;
    let judged = sheet.judge(n * n, out.len())?;
    table_of(&judged, out)
}

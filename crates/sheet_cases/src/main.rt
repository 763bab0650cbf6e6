// Runs sheets: the scope's sheet of five strains, its table and names in it, and names that are as long as may be.
#![tactic(auto)]

use case_lines::{say, say_number};
use refusals::Refusal;
use std::io;

// The name of a leaf, or why there is none.
fn say_name(rt: &impl Print, answer: Result<&[u8], Refusal>) -> io::Result<()> {
    match answer {
        Ok(name) => {
            rt.write_all(name)?;
            println!(rt)
        }
        Err(cause) => say(rt, b"", Err(cause)),
    }
}

// Reads a sheet, and shows the name of a leaf as the bytes of the sheet themselves.
fn show_name(rt: &impl Print, bytes: &[u8], leaf: usize) -> io::Result<()> {
    let reading = sheets::read_sheet(bytes);
    say_name(rt, sheet_names::name(reading.sheet, leaf))
}

fn say_cell(rt: &impl Print, what: &[u8], cell: u32) -> io::Result<()> {
    say_number(rt, what, cell as u64)
}

// The scope's sheet of five strains: its table, and names in it.
fn sheet_of_five(rt: &impl Print) -> io::Result<()> {
    let sheet =
        b"\x01a\x01b\x01c\x01d\x01e\x03\0\x01\0\0\0\0\0\x01\0\0\0\0\0\x01\0\x01\0\x03\0\x05\0\x0A\0\0\0QT";
    let mut cells = [9u32; 25];
    say(
        rt,
        b"table of the sheet of five strains: ",
        sheet_tables::sheet_table(sheet, &mut cells),
    )?;
    say_number(rt, b"its leaf count: ", sheets::leaf_count_of(sheet) as u64)?;
    say_cell(rt, b"cell (0,1): ", cells[1])?;
    say_cell(rt, b"cell (1,0): ", cells[5])?;
    say_cell(rt, b"cell (2,4): ", cells[14])?;
    say_cell(rt, b"cell (4,4): ", cells[24])?;
    print!(rt; "the name of leaf 4: ")?;
    show_name(rt, sheet, 4)?;
    print!(rt; "the name of leaf 5: ")?;
    show_name(rt, sheet, 5)
}

// Sheets of three strains, the second with a name of 40 and of 41 bytes. All cells are 0.
fn name_lengths(rt: &impl Print) -> io::Result<()> {
    let forty =
        b"\x01a\x28bbbbbbbbbbbbbbbbbbbbbbbbbbbbbbbbbbbbbbbb\x01c\0\0\0\0\0\0\x03\0\x2D\0\0\0QT";
    let one_more =
        b"\x01a\x29bbbbbbbbbbbbbbbbbbbbbbbbbbbbbbbbbbbbbbbbb\x01c\0\0\0\0\0\0\x03\0\x2E\0\0\0QT";
    say(rt, b"a name of 40 bytes: ", sheets::check_sheet(forty))?;
    say(rt, b"a name of 41 bytes: ", sheets::check_sheet(one_more))
}

fn main(rt: HostRuntime) -> io::Result<()> {
    sheet_of_five(&rt)?;
    name_lengths(&rt)
}

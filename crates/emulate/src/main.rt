// Reads bytes from standard input with the emulator of ECMA-48 and prints the screen that they leave: the rows, their attributes, cursor and pen.
#![tactic(auto)]

use anyhow::anyhow;
use emulator::Emulator;
use grids::grids::Grid;
use pick_list::{Cursor, row_cells, show_row};
use places::Size;
use std::env;
use std::io::Read;
use std::process::ExitCode;
use text_cells::{Part, TextCell};

// The most rows and columns that are emulated.
const MOST: usize = 1000;

// The number that a word is, from 1 to 1000.
fn side(word: &str) -> Option<usize> {
    word.parse::<usize>()
        .ok()
        .filter(|number| (1..=MOST).contains(number))
}

// The rows and columns that words give.
fn parse_size(words: &[String]) -> Option<Size> {
    let [rows, columns] = words else {
        return None;
    };
    Some(Size {
        rows: side(rows.as_str())?,
        columns: side(columns.as_str())?,
    })
}

// The rows and columns that the command line gives.
fn asked_size(rt: &HostRuntime) -> anyhow::Result<Size> {
    let words: Vec<String> = env::args(rt)?.skip(1).collect(rt.alloc())?;
    parse_size(words.as_slice()).ok_or_else(|| anyhow!(
        "write emulate ROWS COLUMNS, each from 1 to 1000"
    ))
}

// Prints the rows between bars, then the attributes of their cells, a hex digit each.
fn print_grid(rt: &HostRuntime, grid: &mut Grid<'_, TextCell>) -> anyhow::Result<()> {
    let heap = rt.alloc();
    // rows are asked for by their numbers
    for row in 0..grid.rows() {
        let cells = row_cells(heap, grid, row)?;
        println!(rt; "|{}|", show_row(heap, cells.as_slice())?)?;
    }
    for row in 0..grid.rows() {
        for cell in row_cells(heap, grid, row)?.iter() {
            print!(rt; "{:x}", cell.attributes)?;
        }
        rt.println("")?;
    }
    Ok(())
}

// Reads all of standard input onto a screen that is first all "#".
fn run(rt: &HostRuntime) -> anyhow::Result<()> {
    let size = asked_size(rt)?;
    let heap = rt.alloc();
    let mut bytes = Vec::new(heap);
    rt.stdin().read_to_end(&mut bytes)?;
    let hash = TextCell::new(35, Part::Single, 0);
    let mut cells = vec![in heap; hash; size.rows.saturating_mul(size.columns)]?;
    let mut emulator = Emulator::new(cells.as_mut_slice(), size);
    emulator.read_all(bytes.as_slice());
    print_grid(rt, &mut emulator.grid)?;
    // where the cursor is, and the attributes of the characters to come
    println!(rt; "{} pen {}", Cursor(emulator.cursor()), emulator.pen)?;
    Ok(())
}

fn main(rt: HostRuntime) -> ExitCode {
    match run(&rt) {
        Ok(()) => ExitCode::SUCCESS,
        Err(fault) => {
            let _ = eprintln!(rt; "{fault}");
            ExitCode::FAILURE
        }
    }
}

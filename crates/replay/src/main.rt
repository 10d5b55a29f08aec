// Replays a pick list from standard input: its first line gives the width, every other line becomes a row of cells that is mended and printed.
// With a command line each row is shown on a terminal besides, or on a pane of one; after the word raw only the bytes that the terminal sends are written.
#![tactic(auto)]

mod boards;
mod command;
mod inspection;
mod rows;

ghost use Rattle.std.specs.Prelude.{◌≡◌, [], IfOk, if◌then◌else◌, codes, nat_eq};
ghost use Rattle.std.specs.Str.{chars};
ghost use Rattle.replay.specs.Lines.{content_of};

use anyhow::anyhow;
use boards::{Board, NoBoard, TerminalBoard};
use byte_cells::ByteCell;
use cells::kinds::TerminalCell;
use command::{Asked, Command, Kind, parse_command};
use dumb::Dumb;
use ecma48::Ecma48;
use faults::Fault;
use inspection::{Inspected, Outcome, print_bytes, print_grid};
use pane::panes::Pane;
use pane::rectangles::Rectangle;
use pick_list::{Laid, parse_width, show_row};
use rows::{MendedLine, mended_line};
use std::alloc::{AllocError, Global};
use std::io::{BufRead, BufReader, Read, Write};
use std::process::ExitCode;
use std::{env, io};
use terminal::terminals::Terminal;
use text_cells::{Part, TextCell};

// What is written of a list: its text, or the bytes alone that a terminal sends for it.
#[derive(Clone, Copy, PartialEq, Eq, Debug)]
enum Output {
    Text,
    Raw,
}

// How many lines became a row, and how many were refused.
#[derive(Clone, Copy)]
struct Tally {
    rows: u64,
    refused: u64,
}

// Which line of the list a row comes from, and which row of the board it takes.
#[derive(Clone, Copy)]
struct Place {
    line: u64,
    row: usize,
}

// A line without its end, "\n" or "\r\n"; the last line of a list may have none.
fn content(line: &[u8]) -> &[u8]
    ensures { result.now ≡ content_of line.now }
{
    match line {
        [content @ .., b'\r', b'\n'] => content,
        [content @ .., b'\n'] => content,
        _ => line,
    }
}

// The characters of a text.
fn characters(heap: Global, text: &str) -> Result<Vec<char>, AllocError>
    ensures { IfOk result (λ v. v.items ≡ chars text.now) }
{
    text.chars().collect(heap)
}

// Prints the row of a text, and what became of the characters.
fn print_row(rt: &HostRuntime, text: &[char], width: usize) -> anyhow::Result<()> {
    let heap = rt.alloc();
    let MendedLine { line, blanked } = mended_line(heap, text, width)?;
    let shown = show_row(heap, line.row.as_slice())?;
    let Laid { laid, cut, dropped } = line.laid;
    print!(rt; "|{shown}| {laid} laid, {cut} cut, {blanked} blanked")?;
    if dropped > 0 {
        print!(rt; ", {dropped} without width")?;
    }
    rt.println("")?;
    Ok(())
}

// Reads a line, with its end, in place of what `line` held; is there one?
fn read_line<R: Read>(input: &mut BufReader<R>, line: &mut Vec<u8>) -> io::Result<bool> {
    line.clear();
    Ok(input.read_until(b'\n', line)? > 0)
}

// What a noun ends in after a number.
fn plural(count: u64) -> &'static str
    ensures { result.now ≡ (if nat_eq count 1 then [] else codes "s") }
{
    if count == 1 { "" } else { "s" }
}

// Prints how many rows there were and how many lines were no text.
fn print_summary(rt: &HostRuntime, tally: Tally, width: usize) -> io::Result<()> {
    let Tally { rows, refused } = tally;
    print!(rt;
        "{rows} row{} of {width} column{}, ",
        plural(rows),
        plural(width as u64)
    )?;
    println!(rt; "{refused} line{} refused", plural(refused))
}

// The program's run: its runtime, and what it writes of a list.
#[derive(Clone, Copy)]
struct Replay<'r> {
    rt: &'r HostRuntime,
    output: Output,
}

// The list, line by line.
impl<'r> Replay<'r> {
    // Shows a text on the board; its row is printed if the list is, with a message if it was refused.
    fn take_row<B: Board>(
        self,
        board: &mut B,
        text: &str,
        place: Place,
        width: usize,
    ) -> anyhow::Result<()> {
        let heap = self.rt.alloc();
        let text = characters(heap, text)?;
        let refusal = board.show(heap, place.row, text.as_slice(), width)?;
        if self.output == Output::Raw {
            return Ok(());
        }
        print_row(self.rt, text.as_slice(), width)?;
        if let Some(fault) = refusal {
            println!(self.rt; "line {}: {fault}", place.line)?;
        }
        Ok(())
    }

    // Takes the row of every line that is left, and tells of each line that is no text if the list is printed.
    fn take_lines<R: Read, B: Board>(
        self,
        input: &mut BufReader<R>,
        board: &mut B,
        width: usize,
    ) -> anyhow::Result<Tally> {
        let mut line = Vec::new(self.rt.alloc());
        let mut tally = Tally {
            rows: 0,
            refused: 0,
        };
        // lines go by their numbers, which the messages tell
        for number in 2..u64::MAX {
            if !read_line(input, &mut line)? {
                break;
            }
            match std::str::from_utf8(content(line.as_slice())) {
                Ok(text) => {
                    let place = Place {
                        line: number,
                        row: tally.rows as usize,
                    };
                    self.take_row(board, text, place, width)?;
                    tally.rows += 1;
                }
                Err(fault) => {
                    let first = fault.valid_up_to() + 1;
                    if self.output == Output::Text {
                        println!(self.rt; "line {number}: not UTF-8 text from byte {first} on")?;
                    }
                    tally.refused += 1;
                }
            }
        }
        Ok(tally)
    }

    // The whole list, put on a board.
    fn list_on<B: Board>(self, board: &mut B) -> anyhow::Result<()> {
        let mut input = BufReader::new(self.rt.alloc(), self.rt.stdin())?;
        let mut line = Vec::new(self.rt.alloc());
        let _ = read_line(&mut input, &mut line)?;
        let Some(width) = parse_width(content(line.as_slice())) else {
            return Err(anyhow!("line 1: the width has to be a number from 1 to 128"));
        };
        let tally = self.take_lines(&mut input, board, width)?;
        if self.output == Output::Text {
            print_summary(self.rt, tally, width)?;
        }
        Ok(())
    }
}

// The list on a terminal.
impl<'r> Replay<'r> {
    // The list on a terminal, and what that tells of itself then.
    fn on_terminal<T: Terminal>(self, terminal: &mut T) -> anyhow::Result<Outcome> {
        self.list_on(&mut TerminalBoard { terminal })?;
        Ok(Outcome::of(terminal))
    }

    // The same on a pane of it.
    fn on_pane<T: Terminal>(self, terminal: &mut T, area: Rectangle) -> anyhow::Result<Outcome> {
        accepted(
            Pane::check(terminal, area),
            "the pane has to lie inside the terminal, with a row and a column at least",
        )?;
        self.on_terminal(&mut Pane::new(terminal, area))
    }

    // The list on a terminal or a pane of it, then the bytes that the terminal sent, in raw, or in text with its grid and what it tells of itself.
    fn on_inspected<T: Inspected>(
        self,
        terminal: &mut T,
        pane: Option<Rectangle>,
    ) -> anyhow::Result<()> {
        let outcome = match pane {
            Some(area) => self.on_pane(terminal, area)?,
            None => self.on_terminal(terminal)?,
        };
        match self.output {
            Output::Raw => self.rt.stdout().write_all(terminal.bytes())?,
            Output::Text => {
                print_bytes(self.rt, terminal.bytes())?;
                print_grid(self.rt, terminal)?;
                println!(self.rt; "{outcome}")?;
            }
        }
        Ok(())
    }

    // The list on a dumb terminal. Apart from the other kind, since one function for both would have to name, in a type, how long memory lives
    // that it makes itself.
    fn on_dumb(self, asked: Asked) -> anyhow::Result<()> {
        let limits = "a dumb terminal has 1 to 24 rows and 1 to 80 columns";
        accepted(Dumb::check(asked.size, asked.cells()), limits)?;
        let mut memory = Memory::of(self.rt.alloc(), asked, ByteCell { byte: b'#' })?;
        let cells = memory.cells.as_mut_slice();
        let mut dumb = Dumb::new(cells, asked.size, memory.line.as_mut_slice());
        self.on_inspected(&mut dumb, asked.pane)
    }

    // The list on an ECMA-48 terminal.
    fn on_ecma48(self, asked: Asked) -> anyhow::Result<()> {
        let limits = "an ECMA-48 terminal has 1 to 64 rows and 1 to 128 columns";
        accepted(Ecma48::check(asked.size, asked.cells()), limits)?;
        let mut memory = Memory::of(self.rt.alloc(), asked, TextCell::new(35, Part::Single, 0))?;
        let cells = memory.cells.as_mut_slice();
        let mut ecma48 = Ecma48::new(cells, asked.size, memory.line.as_mut_slice());
        self.on_inspected(&mut ecma48, asked.pane)
    }

    // The list on the terminal that is asked for: each kind is a type of its own, which the match picks.
    fn on_asked(self, asked: Asked) -> anyhow::Result<()> {
        match asked.kind {
            Kind::Dumb => self.on_dumb(asked),
            Kind::Ecma48 => self.on_ecma48(asked),
        }
    }
}

// The memory of a terminal: a cell for each spot of its grid, and its line.
#[derive(Drop)]
struct Memory<C> {
    cells: Vec<C>,
    line: Vec<u8>,
}

impl<C: TerminalCell> Memory<C> {
    // The memory that is asked for, with one cell at each spot.
    fn of(heap: Global, asked: Asked, cell: C) -> Result<Memory<C>, AllocError> {
        Ok(Memory {
            cells: vec![in heap; cell; asked.cells()]?,
            line: vec![in heap; 0u8; asked.line]?,
        })
    }
}

// The answer of a check; a refusal is told with its reason.
fn accepted(answer: Result<(), Fault>, why: &str) -> anyhow::Result<()> {
    answer.map_err(|fault| anyhow!("{fault}: {why}"))
}

// Does what the command line asks for: the list alone has no terminal, the others differ in what is written.
fn run_command(rt: &HostRuntime, command: Command) -> anyhow::Result<()> {
    let replay = |output| Replay { rt, output };
    match command {
        Command::List => replay(Output::Text).list_on(&mut NoBoard),
        Command::Shown(asked) => replay(Output::Text).on_asked(asked),
        Command::Raw(asked) => replay(Output::Raw).on_asked(asked),
    }
}

// The whole program, with the message of words that are no command, which is longer than an `anyhow::Error` holds.
fn run(rt: &HostRuntime) -> anyhow::Result<ExitCode> {
    let words: Vec<String> = env::args(rt)?.skip(1).collect(rt.alloc())?;
    match parse_command(words.as_slice()) {
        Ok(command) => {
            run_command(rt, command)?;
            Ok(ExitCode::SUCCESS)
        }
        Err(fault) => {
            eprintln!(rt; "{fault}")?;
            Ok(ExitCode::FAILURE)
        }
    }
}

fn main(rt: HostRuntime) -> ExitCode {
    match run(&rt) {
        Ok(code) => code,
        Err(fault) => {
            let _ = eprintln!(rt; "{fault}");
            ExitCode::FAILURE
        }
    }
}

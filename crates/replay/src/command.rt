// The command line: the list alone, or a terminal that it is put on.
use pane::rectangles::Rectangle;
use places::Size;
use std::error::Error;
use std::fmt;
use std::num::ParseIntError;
use std::str::FromStr;

// The kinds of terminal.
#[derive(Clone, Copy, PartialEq, Eq, Debug)]
pub enum Kind {
    Dumb,
    Ecma48,
}

// The terminal that is asked for: its kind and size, how many bytes its line memory has, and the pane of it that is written to, none for all of it.
#[derive(Clone, Copy, PartialEq, Eq, Debug)]
pub struct Asked {
    pub kind: Kind,
    pub size: Size,
    pub line: usize,
    pub pane: Option<Rectangle>,
}

impl Asked {
    // How many spots its grid has.
    pub fn cells(self) -> usize {
        self.size.rows.saturating_mul(self.size.columns)
    }
}

// What is asked for.
#[derive(Clone, Copy, PartialEq, Eq, Debug)]
pub enum Command {
    // the list as text
    List,
    // the list as text, and what a terminal has of it then
    Shown(Asked),
    // the bytes that a terminal sends, and no text
    Raw(Asked),
}

// The words are no command.
#[derive(Clone, Copy, PartialEq, Eq, Debug)]
pub struct NoCommand;

impl fmt::Display for NoCommand {
    fn fmt<W: fmt::Write>(&self, f: &mut fmt::Formatter<W>) -> fmt::Result {
        f.write_str(
            "write replay, or replay dumb or ecma48 ROWS COLUMNS LINE, then perhaps pane ROW COLUMN HEIGHT WIDTH, with raw before dumb or ecma48 for the bytes alone",
        )
    }
}

impl Error for NoCommand {}

impl From<ParseIntError> for NoCommand {
    fn from(_fault: ParseIntError) -> NoCommand {
        NoCommand
    }
}

impl FromStr for Kind {
    type Err = NoCommand;

    fn from_str(word: &str) -> Result<Kind, NoCommand> {
        match word {
            "dumb" => Ok(Kind::Dumb),
            "ecma48" => Ok(Kind::Ecma48),
            _ => Err(NoCommand),
        }
    }
}

// What the words after the program's name ask for.
pub fn parse_command(words: &[String]) -> Result<Command, NoCommand> {
    match words {
        [] => Ok(Command::List),
        [first, asked @ ..] if first.as_str() == "raw" => Ok(Command::Raw(parse_asked(asked)?)),
        asked => Ok(Command::Shown(parse_asked(asked)?)),
    }
}

// The terminal that the words give.
fn parse_asked(words: &[String]) -> Result<Asked, NoCommand> {
    let [kind, rows, columns, line, pane @ ..] = words else {
        return Err(NoCommand);
    };
    Ok(Asked {
        kind: kind.as_str().parse::<Kind>()?,
        size: Size {
            rows: rows.as_str().parse::<usize>()?,
            columns: columns.as_str().parse::<usize>()?,
        },
        line: line.as_str().parse::<usize>()?,
        pane: parse_pane(pane)?,
    })
}

// The rectangle that the words after the line memory give, none if there are none.
fn parse_pane(words: &[String]) -> Result<Option<Rectangle>, NoCommand> {
    match words {
        [] => Ok(None),
        [first, top, left, height, width] if first.as_str() == "pane" => Ok(Some(Rectangle {
            top: top.as_str().parse::<usize>()?,
            left: left.as_str().parse::<usize>()?,
            height: height.as_str().parse::<usize>()?,
            width: width.as_str().parse::<usize>()?,
        })),
        _ => Err(NoCommand),
    }
}

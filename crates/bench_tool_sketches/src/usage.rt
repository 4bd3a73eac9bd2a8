// The commands: their names and what each expects.
ghost use Rattle.std.specs.Prelude.{◌≤◌, IsTrue};

use std::io;

#[derive(Clone, Copy)]
pub enum Command {
    New,
    Update,
    Updates,
    UpdateAt,
    Advance,
    Merge,
    Read,
    Mean,
    Cell,
    Grid,
    Audit,
    Zoom,
    Dump,
    Watch,
    Ask,
    Save,
    Load,
    SetClock,
    SetState,
    SetGrid,
    Card,
    Say,
    Help,
}

// In the order in which `help` lists them.
const ALL: [Command; 23] = [
    Command::New,
    Command::Update,
    Command::Updates,
    Command::UpdateAt,
    Command::Advance,
    Command::Merge,
    Command::Read,
    Command::Mean,
    Command::Cell,
    Command::Grid,
    Command::Audit,
    Command::Zoom,
    Command::Dump,
    Command::Watch,
    Command::Ask,
    Command::Save,
    Command::Load,
    Command::SetClock,
    Command::SetState,
    Command::SetGrid,
    Command::Card,
    Command::Say,
    Command::Help,
];

impl Command {
    pub fn from_word(word: &[u8]) -> Option<Command> {
        match word {
            b"new" => Some(Command::New),
            b"update" => Some(Command::Update),
            b"updates" => Some(Command::Updates),
            b"update_at" => Some(Command::UpdateAt),
            b"advance" => Some(Command::Advance),
            b"merge" => Some(Command::Merge),
            b"read" => Some(Command::Read),
            b"mean" => Some(Command::Mean),
            b"cell" => Some(Command::Cell),
            b"grid" => Some(Command::Grid),
            b"audit" => Some(Command::Audit),
            b"zoom" => Some(Command::Zoom),
            b"dump" => Some(Command::Dump),
            b"watch" => Some(Command::Watch),
            b"ask" => Some(Command::Ask),
            b"save" => Some(Command::Save),
            b"load" => Some(Command::Load),
            b"setclock" => Some(Command::SetClock),
            b"setstate" => Some(Command::SetState),
            b"setgrid" => Some(Command::SetGrid),
            b"card" => Some(Command::Card),
            b"say" => Some(Command::Say),
            b"help" => Some(Command::Help),
            _ => None,
        }
    }

    // Whether a line on a sketch may have so many words, the command's name among them: `read` and `ask` have a word that may
    // be left out, and `watch` has as many as there are codes.
    pub(crate) fn takes(self, count: usize) -> bool
        ensures { IsTrue result → 2 ≤ count }
    {
        match self {
            Command::Grid | Command::Audit | Command::Zoom | Command::Dump => count == 2,
            Command::Watch => count >= 2,
            Command::Ask => count == 2 || count == 3,
            Command::Read => count == 3 || count == 4,
            Command::Updates | Command::UpdateAt | Command::Cell => count == 4,
            _ => count == 3,
        }
    }

    pub(crate) fn form(self) -> &'static str {
        match self {
            Command::New => {
                "new ID ROWS COLS T C count LENGTH SEED, or new ID ROWS COLS T C time LENGTH EPOCH SEED"
            }
            Command::Update => "update ID COL,COL,..",
            Command::Updates => "updates ID TIMES COL,COL,.. with TIMES from 1 to 1000000",
            Command::UpdateAt => "update_at ID TIME COL,COL,..",
            Command::Advance => "advance ID TIME",
            Command::Merge => "merge ID ID",
            Command::Read => {
                "read ID COL,COL,.. or read ID COL,COL,.. BITS, the 16 hexadecimal digits of a fraction"
            }
            Command::Mean => "mean ID COL,COL,..",
            Command::Cell => "cell ID ROW COL",
            Command::Grid => "grid ID",
            Command::Audit => "audit ID",
            Command::Zoom => "zoom ID",
            Command::Dump => "dump ID",
            Command::Watch => {
                "watch ID COL,COL,..:LIMIT .., a word for each code, or watch ID for no codes"
            }
            Command::Ask => "ask ID, or ask ID ROOM with a list of ROOM bytes, 0 to 64",
            Command::Save => "save ID FILE",
            Command::Load => "load ID FILE",
            Command::SetClock => "setclock ID VALUE",
            Command::SetState => "setstate ID VALUE",
            Command::SetGrid => "setgrid ID HEX, two digits for each byte of the grid",
            Command::Card => "card",
            Command::Say => "say WORDS",
            Command::Help => "help",
        }
    }
}

pub fn help(rt: &impl Print) -> io::Result<()> {
    println!(rt; "ok the commands; ID is a, b, c or d, and a number is decimal or 0x")?;
    for command in ALL {
        println!(rt; "  {}", command.form())?;
    }
    Ok(())
}

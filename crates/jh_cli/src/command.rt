//! The words of the command line.
ghost use Rattle.std.specs.Prelude.{◌≡◌, ℕ, List, IfSome, map, string_bytes};
ghost use Rattle.std.specs.Borrow.{Bor};
ghost use Rattle.std.specs.List.{list_all};
ghost use Rattle.std.specs.Option.{option_map};
ghost use Rattle.jh_cli.specs.Words.{Request, is_operand, check_command, of_one, of_two, command_for, command_of, request_by, HasFewCells};

use jh_check::MAX_CELLS;

/// A command with its operands.
#[derive(Clone, Copy)]
pub enum Command<'a> {
    /// Checks a system and up to 15 cells.
    Check {
        system: &'a str,
        cells: &'a [String],
    },
    /// Writes the configuration that a SPEC tells.
    Pack {
        spec: &'a str,
    },
    /// Plays a board by a schedule.
    Play {
        board: &'a str,
        schedule: &'a str,
    },
    /// Runs a board, with a worker for each of its CPUs.
    Run {
        board: &'a str,
    },
    /// Tells the maps of a board's cells after a schedule.
    Map {
        board: &'a str,
        schedule: &'a str,
    },
    /// Judges a journal by a board.
    Audit {
        board: &'a str,
        journal: &'a str,
    },
    /// Runs a board of so many rounds, and tells what its journal comes to.
    Soak {
        rounds: &'a str,
    },
    /// Plans cells that meet demands beside a system.
    Plan {
        system: &'a str,
        demands: &'a str,
    },
    /// Tells which pins a board's cells hold after a schedule.
    Pins {
        board: &'a str,
        schedule: &'a str,
    },
    /// Tells the leaves of the tables of a board's cells after a schedule.
    Tables {
        board: &'a str,
        schedule: &'a str,
    },
}

/// Whether the word may be an operand: it doesn't begin with `-`. An empty word may.
fn is_operand(word: &str) -> bool
    ensures { result ≡ is_operand word.now }
{
    match word.as_bytes().first() {
        Some(byte) => *byte != b'-',
        None => true,
    }
}

/// Whether all of the words may be operands: none begins with `-`.
fn are_operands(words: &[String]) -> bool
    ensures { result ≡ list_all is_operand (map string_bytes words.now) }
{
    words.iter().all(|word| is_operand(word.as_str()))
}

/// The command `check`: its operands are a system and up to 15 cells.
fn check_command(operands: &[String]) -> Option<Command<'_>>
    ensures command { option_map request_by result ≡ check_command (map string_bytes operands.now) }
    ensures few { IfSome result HasFewCells }
{
    match operands {
        [system, cells @ ..] if cells.len() <= MAX_CELLS => Some(Command::Check {
            system: system.as_str(),
            cells,
        }),
        _ => None,
    }
}

/// The one operand; `None` where there are none or more.
fn one_operand(operands: &[String]) -> Option<&str>
    ensures { (request : List ℕ → Request) → option_map (λ (operand : Bor (List ℕ)). request operand.now) result ≡ of_one request (map string_bytes operands.now) }
{
    match operands {
        [operand] => Some(operand.as_str()),
        _ => None,
    }
}

/// The two operands; `None` where there are fewer or more.
fn two_operands(operands: &[String]) -> Option<(&str, &str)>
    ensures { (request : List ℕ → List ℕ → Request) → option_map (λ (two : Bor (List ℕ) × Bor (List ℕ)). request two.0.now two.1.now) result ≡ of_two request (map string_bytes operands.now) }
{
    match operands {
        [first, second] => Some((first.as_str(), second.as_str())),
        _ => None,
    }
}

/// The command of this word with these operands. The number of rounds of a soak isn't read here.
fn command_for<'a>(word: &str, operands: &'a [String]) -> Option<Command<'a>>
    ensures command { option_map request_by result ≡ command_for word.now (map string_bytes operands.now) }
    ensures few { IfSome result HasFewCells }
{
    if word == "check" {
        check_command(operands)
    } else if word == "pack" {
        let spec = one_operand(operands)?;
        Some(Command::Pack { spec })
    } else if word == "play" {
        let (board, schedule) = two_operands(operands)?;
        Some(Command::Play { board, schedule })
    } else if word == "run" {
        let board = one_operand(operands)?;
        Some(Command::Run { board })
    } else if word == "map" {
        let (board, schedule) = two_operands(operands)?;
        Some(Command::Map { board, schedule })
    } else if word == "audit" {
        let (board, journal) = two_operands(operands)?;
        Some(Command::Audit { board, journal })
    } else if word == "soak" {
        let rounds = one_operand(operands)?;
        Some(Command::Soak { rounds })
    } else if word == "plan" {
        let (system, demands) = two_operands(operands)?;
        Some(Command::Plan { system, demands })
    } else if word == "pins" {
        let (board, schedule) = two_operands(operands)?;
        Some(Command::Pins { board, schedule })
    } else if word == "tables" {
        let (board, schedule) = two_operands(operands)?;
        Some(Command::Tables { board, schedule })
    } else {
        None
    }
}

/// The command of the words, of which the first is the program's name; `None` where they have no command.
pub fn command_of(words: &[String]) -> Option<Command<'_>>
    ensures command { option_map request_by result ≡ command_of (map string_bytes words.now) }
    ensures few { IfSome result HasFewCells }
{
    match words {
        [_, word, operands @ ..] if are_operands(operands) => command_for(word.as_str(), operands),
        _ => None,
    }
}

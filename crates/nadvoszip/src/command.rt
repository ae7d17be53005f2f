// Which command the arguments choose.
ghost use Rattle.std.specs.Prelude.{◌≡◌};
ghost use Rattle.nadvoszip.specs.Commands.{page_of, NamesCommand};

use crate::failure::Failure;
use crate::help;
use std::env::Args;
use std::str::FromStr;

#[derive(Clone, Copy)]
pub enum Command {
    Demonstrate,
    Pack,
    List,
    Help(&'static str),
}

// No command has the name.
#[derive(Clone, Copy)]
pub struct UnknownName;

impl FromStr for Command {
    type Err = UnknownName;

    ghost from_str_gives = { NamesCommand };

    fn from_str(name: &str) -> Result<Command, UnknownName> {
        match name {
            "pack" => Ok(Command::Pack),
            "list" => Ok(Command::List),
            "--help" => Ok(Command::Help(help::GENERAL)),
            _ => Err(UnknownName),
        }
    }
}

impl Command {
    // The page that explains the command.
    fn page(self) -> &'static str
        ensures { result.now ≡ page_of self }
    {
        match self {
            Command::Pack => help::PACK,
            Command::List => help::LIST,
            _ => help::GENERAL,
        }
    }
}

// The command of the arguments, of which the first is the program's own name.
pub fn chosen(arguments: Args) -> Result<Command, Failure> {
    let mut arguments = arguments.skip(1);
    let Some(first) = arguments.next() else {
        return Ok(Command::Demonstrate);
    };
    let Ok(command) = first.as_str().parse::<Command>() else {
        return Err(Failure::UnknownCommand(first));
    };
    let Some(second) = arguments.next() else {
        return Ok(command);
    };
    if second.as_str() == "--help" && arguments.next().is_none() {
        return Ok(Command::Help(command.page()));
    }
    Err(Failure::UnexpectedArgument(second))
}

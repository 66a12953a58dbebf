//! The commands, their operands and their options, in one table.

ghost use Rattle.std.specs.Prelude.{◌≡◌, map, option_map};
ghost use Rattle.ips_words.specs.Commands.{command_named};
ghost use Rattle.ips_words.specs.Internal.Rows.{choice_row, command_row};

/// What an operand is, or the value of an option.
#[derive(Clone, Copy, Debug, PartialEq, Eq)]
pub enum Kind {
    /// The name of a file.
    Name,
    /// A number from `low` to `high`.
    Number { low: u32, high: u32 },
}

/// An option of a command.
#[derive(Clone, Copy, Debug, PartialEq, Eq)]
pub struct Choice {
    /// The word that stands for it.
    pub word: &'static str,
    /// What its value is.
    pub value: Kind,
    /// Whether the program has it yet.
    pub built: bool,
}

/// A command.
#[derive(Clone, Copy, Debug, PartialEq, Eq)]
pub enum Command {
    Solve,
    Check,
    Ask,
    Sweep,
    Recheck,
    Show,
    Trial,
}

const TREE: Choice = Choice {
    word: "--tree",
    value: Kind::Name,
    built: true,
};

const PROOF: Choice = Choice {
    word: "--proof",
    value: Kind::Name,
    built: true,
};

/// An option that is built, whose value is a number from the second to the third.
macro_rules! number_choice {
    ($word:literal, $low:literal, $high:literal) => {
        Choice {
            word: $word,
            value: Kind::Number {
                low: $low,
                high: $high,
            },
            built: true,
        }
    };
}

const NODES: Choice = number_choice!("--nodes", 1, 1_000_000);

const DEPTH: Choice = number_choice!("--depth", 0, 800);

const PIVOTS: Choice = number_choice!("--pivots", 0, 100_000);

const DIGITS: Choice = number_choice!("--digits", 0, 9);

const BOX: Choice = number_choice!("--box", 0, 16_777_216);

impl Command {
    /// The command that a word is.
    #[tactic(auto, unfolding(crate::specs::Commands::commands))]
    pub fn named(word: &str) -> Option<Command>
        ensures { option_map command_row result ≡ command_named word.now }
    {
        match word {
            "solve" => Some(Command::Solve),
            "check" => Some(Command::Check),
            "ask" => Some(Command::Ask),
            "sweep" => Some(Command::Sweep),
            "recheck" => Some(Command::Recheck),
            "show" => Some(Command::Show),
            "trial" => Some(Command::Trial),
            _ => None,
        }
    }

    /// What its operands are.
    pub fn operands(self) -> &'static [Kind]
        ensures { result.now ≡ (command_row self).operands }
    {
        match self {
            Command::Solve | Command::Show => &[Kind::Name],
            Command::Check | Command::Sweep => &[Kind::Name, Kind::Name],
            Command::Ask | Command::Recheck => &[Kind::Name, Kind::Name, Kind::Name],
            Command::Trial => &[Kind::Number {
                low: 0,
                high: u32::MAX,
            }],
        }
    }

    /// Its options.
    pub fn choices(self) -> &'static [Choice]
        ensures { map choice_row result.now ≡ (command_row self).choices }
    {
        match self {
            Command::Solve => &[TREE, NODES, DEPTH, PIVOTS, DIGITS, BOX],
            Command::Sweep => &[PROOF, NODES, DEPTH, PIVOTS, DIGITS, BOX],
            Command::Check | Command::Ask | Command::Recheck | Command::Show => &[DIGITS, BOX],
            Command::Trial => &[],
        }
    }

    /// Whether the program has it yet.
    pub fn is_built(self) -> bool
        ensures { result ≡ (command_row self).built }
    {
        match self {
            Command::Solve
            | Command::Check
            | Command::Ask
            | Command::Sweep
            | Command::Recheck
            | Command::Show => true,
            Command::Trial => false,
        }
    }
}

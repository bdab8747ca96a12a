// The commands, and the words that each takes.
ghost use Rattle.std.specs.Prelude.{◌≡◌};
ghost use Rattle.std.specs.Option.{unwrap_or};
ghost use Rattle.console.specs.Commands.{command_of, takes_chip, fewest_of, most_of};
ghost use Rattle.console.specs.Commands.{takes_arguments, takes_force, takes_layout, takes_size, takes_wide, takes_option};
ghost use Rattle.console.specs.Commands.{command_name, command_as_number, named_as_number};
ghost use Rattle.console.specs.Options.{option_as_number};

use crate::option::CommandOption;

#[derive(Clone, Copy, PartialEq, Eq)]
pub enum Command {
    Read = 1,
    Older,
    Walk,
    Sheet,
    Map,
    Write,
    Magic,
    Widen,
    Narrow,
    Refusals,
    Help,
}

impl Command {
    const ALL: [Command; 11] = [
        Command::Read,
        Command::Older,
        Command::Walk,
        Command::Sheet,
        Command::Map,
        Command::Write,
        Command::Magic,
        Command::Widen,
        Command::Narrow,
        Command::Refusals,
        Command::Help,
    ];

    fn name(self) -> &'static [u8]
        ensures { result.now ≡ command_name self }
    {
        match self {
            Command::Read => b"read",
            Command::Older => b"older",
            Command::Walk => b"walk",
            Command::Sheet => b"sheet",
            Command::Map => b"map",
            Command::Write => b"write",
            Command::Magic => b"magic",
            Command::Widen => b"widen",
            Command::Narrow => b"narrow",
            Command::Refusals => b"refusals",
            Command::Help => b"help",
        }
    }

    // The command that a word names.
    pub(crate) fn named(word: &[u8]) -> Option<Command>
        ensures { named_as_number result ≡ command_of word.now }
    {
        Command::ALL
            .iter()
            .copied()
            .find(|command| command.name() == word)
    }

    // Whether it reads a card, and so takes a chip behind the file.
    #[tactic(auto, unfolding(crate::specs::Commands::takes_chip))]
    pub(crate) fn takes_chip(self) -> bool
        ensures { result ≡ takes_chip (command_as_number self) }
    {
        matches!(
            self,
            Command::Read | Command::Older | Command::Walk | Command::Sheet | Command::Map
        )
    }

    // The fewest plain words behind it.
    #[tactic(auto, unfolding(crate::specs::Commands::fewest_of, rom::specs::Bytes::pick))]
    pub(crate) fn fewest(self) -> usize
        ensures { result ≡ fewest_of (command_as_number self) }
    {
        match self {
            Command::Refusals | Command::Help => 0,
            Command::Read | Command::Older => 2,
            Command::Write | Command::Magic | Command::Widen | Command::Narrow => 2,
            Command::Walk | Command::Sheet | Command::Map => 3,
        }
    }

    // The most of them: `walk` has no bound.
    #[tactic(auto, unfolding(crate::specs::Commands::most_of, rom::specs::Bytes::pick))]
    pub(crate) fn most(self) -> Option<usize>
        ensures { unwrap_or result 4 ≡ most_of (command_as_number self) }
    {
        if self == Command::Walk {
            None
        } else {
            Some(self.fewest())
        }
    }

    #[tactic(auto, unfolding(crate::specs::Commands::takes_arguments))]
    fn takes_arguments(self) -> bool
        ensures { result ≡ takes_arguments (command_as_number self) }
    {
        matches!(
            self,
            Command::Read | Command::Older | Command::Walk | Command::Map
        )
    }

    #[tactic(auto, unfolding(crate::specs::Commands::takes_force))]
    fn takes_force(self) -> bool
        ensures { result ≡ takes_force (command_as_number self) }
    {
        matches!(
            self,
            Command::Sheet
                | Command::Map
                | Command::Write
                | Command::Magic
                | Command::Widen
                | Command::Narrow
        )
    }

    // Whether it reads a card or writes one from a sheet, and so takes a layout and an edition.
    #[tactic(auto, unfolding(crate::specs::Commands::takes_chip))]
    fn takes_layout(self) -> bool
        ensures { result ≡ takes_layout (command_as_number self) }
    {
        self.takes_chip() || self == Command::Write
    }

    // Whether it takes the size of a card's ROM.
    #[tactic(auto, unfolding(crate::specs::Commands::takes_size))]
    fn takes_size(self) -> bool
        ensures { result ≡ takes_size (command_as_number self) }
    {
        self.takes_layout() || self == Command::Magic
    }

    // Whether it takes a sheet of either form.
    #[tactic(auto, unfolding(crate::specs::Commands::takes_wide))]
    fn takes_wide(self) -> bool
        ensures { result ≡ takes_wide (command_as_number self) }
    {
        matches!(self, Command::Sheet | Command::Write)
    }

    // Whether it takes an option.
    #[tactic(auto, unfolding(crate::specs::Commands::takes_option, rom::specs::Bytes::pick))]
    pub(crate) fn takes(self, option: CommandOption) -> bool
        ensures { result ≡ takes_option (command_as_number self) (option_as_number option) }
    {
        match option {
            CommandOption::Controller | CommandOption::Level => self.takes_arguments(),
            CommandOption::Size => self.takes_size(),
            CommandOption::Edition | CommandOption::Magic => self.takes_layout(),
            CommandOption::Password | CommandOption::Address | CommandOption::Command => {
                self == Command::Magic
            }
            CommandOption::Force => self.takes_force(),
            CommandOption::Wide => self.takes_wide(),
        }
    }
}

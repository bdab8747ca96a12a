// What a word behind the command is: an option, an option's value, or a plain word.
ghost use Rattle.std.specs.Prelude.{◌≡◌, ◌≢◌, ◌<◌, ◌↔◌, IsTrue, IsSome, IfSome};
ghost use Rattle.std.specs.Option.{unwrap_or};
ghost use Rattle.format.specs.Chips.{row_of};
ghost use Rattle.console.specs.Word.{chip_named};
ghost use Rattle.console.specs.Commands.{command_as_number};
ghost use Rattle.console.specs.Options.{option_number, option_of, option_name, option_as_number, found_as_number, role_as_number};
ghost use Rattle.console.specs.Roles.{takes_value, role_of};

use crate::command::Command;
use crate::value;
use block::chip;

// ## The roles of a word

#[derive(Clone, Copy, PartialEq, Eq)]
pub enum CommandOption {
    Controller = 1,
    Level,
    Size,
    Edition,
    Password,
    Address,
    Command,
    Magic,
    Force,
    Wide,
}

#[derive(Clone, Copy, PartialEq, Eq)]
pub enum Role {
    Plain,
    Named(CommandOption),
    // The value of the option before it.
    Value(CommandOption),
    // It begins as an option does, and is none.
    Unknown,
}

// What an option's value should be.
#[derive(Clone, Copy)]
pub(crate) enum Expected {
    Number,
    Size,
    Edition,
    Bytes,
    Word,
    File,
}

impl CommandOption {
    const ALL: [CommandOption; 10] = [
        CommandOption::Controller,
        CommandOption::Level,
        CommandOption::Size,
        CommandOption::Edition,
        CommandOption::Password,
        CommandOption::Address,
        CommandOption::Command,
        CommandOption::Magic,
        CommandOption::Force,
        CommandOption::Wide,
    ];

    fn name(self) -> &'static [u8]
        ensures { result.now ≡ option_name self }
    {
        match self {
            CommandOption::Controller => b"--controller",
            CommandOption::Level => b"--level",
            CommandOption::Size => b"--size",
            CommandOption::Edition => b"--edition",
            CommandOption::Password => b"--password",
            CommandOption::Address => b"--address",
            CommandOption::Command => b"--command",
            CommandOption::Magic => b"--magic",
            CommandOption::Force => b"--force",
            CommandOption::Wide => b"--wide",
        }
    }

    // The option that a word names.
    fn named(word: &[u8]) -> Option<CommandOption>
        ensures { found_as_number result ≡ option_number word.now }
    {
        CommandOption::ALL
            .iter()
            .copied()
            .find(|option| option.name() == word)
    }

    // The value that it takes: --force and --wide take none, and --magic does in `write`.
    #[tactic(auto, unfolding(crate::specs::Roles::takes_value))]
    pub(crate) fn value(self, command: Command) -> Option<Expected>
        ensures { IsSome result ↔ IsTrue (takes_value (command_as_number command) (option_as_number self)) }
    {
        match self {
            CommandOption::Controller | CommandOption::Level => Some(Expected::Number),
            CommandOption::Size => Some(Expected::Size),
            CommandOption::Edition => Some(Expected::Edition),
            CommandOption::Password | CommandOption::Address => Some(Expected::Bytes),
            CommandOption::Command => Some(Expected::Word),
            CommandOption::Magic if command == Command::Write => Some(Expected::File),
            CommandOption::Magic | CommandOption::Force | CommandOption::Wide => None,
        }
    }
}

// What a word is by itself.
#[tactic(auto, using(crate::proofs::OptionNamed::option_picked), unfolding(crate::specs::Options::option_of))]
fn option_of(word: &[u8]) -> Role
    ensures role { role_as_number result ≡ option_of word.now }
    ensures no_value { (option : CommandOption) → result ≢ Role.Value option }
{
    match CommandOption::named(word) {
        Some(option) => Role::Named(option),
        None if word.starts_with(b"--") => Role::Unknown,
        None => Role::Plain,
    }
}

impl Role {
    // The role of a word of a command, behind one of a role.
    #[tactic(auto, unfolding(crate::specs::Roles::role_of, crate::specs::Roles::takes_value, rom::specs::Bytes::pick))]
    pub fn of(word: &[u8], before: Role, command: Command) -> Role
        ensures role { role_as_number result ≡ role_of word.now (role_as_number before) (command_as_number command) }
        ensures value { (option : CommandOption) → result ≡ Role.Value option → before ≡ Role.Named option }
    {
        match before {
            Role::Named(option) if option.value(command).is_some() => Role::Value(option),
            _ => option_of(word),
        }
    }
}

// ## Roles by their numbers, as specs/Options.antt has them

const VALUE: u8 = 12;

impl Role {
    fn number(self) -> u8
        ensures { result ≡ role_as_number self }
    {
        match self {
            Role::Plain => 0,
            Role::Named(option) => option as u8,
            Role::Unknown => 11,
            Role::Value(_) => VALUE,
        }
    }
}

// Whether an option of a command takes a value. What is no option's number takes none.
#[tactic(auto, unfolding(crate::specs::Roles::takes_value))]
fn takes_value(command: u8, option: u8) -> bool
    ensures { result ≡ takes_value command option }
{
    let taking = CommandOption::Controller as u8..=CommandOption::Command as u8;
    taking.contains(&option)
        || option == CommandOption::Magic as u8 && command == Command::Write as u8
}

// The role of a word of a command, behind one of a role. Any number may be asked about.
#[tactic(auto, unfolding(crate::specs::Roles::role_of, rom::specs::Bytes::pick))]
pub fn role_of(word: &[u8], before: u8, command: u8) -> u8
    ensures { result ≡ role_of word.now before command }
{
    if takes_value(command, before) {
        VALUE
    } else {
        option_of(word).number()
    }
}

// ## What the words mean

const REVISED: &[u8] = b"21140A";

// The chip that a word names. The 21140A counts as 21140.
#[tactic(auto, unfolding(crate::specs::Word::chip_named, text::specs::Slices::same_bytes, rom::specs::Bytes::pick))]
pub(crate) fn chip_of(word: &[u8]) -> Option<u16>
    ensures number { unwrap_or result 0 ≡ chip_named word.now }
    ensures known { IfSome result (λ chip. row_of chip < 5) }
{
    if word == REVISED {
        return Some(21140);
    }
    let number = value::number(word)?;
    (chip::row_of(number) < chip::CHIP_COUNT).then_some(number)
}

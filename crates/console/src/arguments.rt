// The words that the program was started with.
use crate::command::Command;
use crate::option::{CommandOption, Expected, Role, chip_of};
use crate::value::BYTES;
use crate::{typed, value};
use magic::Magic;
use std::rt::Env;
use text::line::Line;
use text::slice::part;

// The longest word that is looked at, a path apart.
const LONGEST: usize = 255;

// The plain words whose places are kept: one more than any command takes, `walk` apart.
pub const KEPT: usize = 4;

// The command's place. What is wrong with the words as a whole is said of it.
const COMMAND_AT: usize = 1;

// What the words ask for, as far as they say it.
#[derive(Clone, Copy)]
pub struct Words {
    pub command: Command,
    // Of the first plain words: those behind the command that are no options and no values of options.
    pub places: [Option<usize>; KEPT],
    pub chip: Option<u16>,
    pub controller: Option<u8>,
    pub level: Option<u8>,
    pub size: Option<u16>,
    // Whether a card of version 1 is of edition 1.00, or of 1.01.
    pub first_edition: Option<bool>,
    // Whether the card is laid out with a Magic Packet block, and in `write` the place of the word that names an image with one.
    pub magic: bool,
    pub from: Option<usize>,
    pub wide: bool,
    pub force: bool,
    password: Option<[u8; BYTES]>,
    address: Option<[u8; BYTES]>,
    command_word: Option<u16>,
    // What those three say, in `magic`.
    pub block: Option<Magic>,
}

// ## Complaints

// What has been complained of.
#[derive(Clone, Copy)]
pub struct Complained;

// A complaint about a word.
pub fn complain(rt: &impl Env, what: &[u8], place: usize) -> Complained {
    let word = typed::word::<LONGEST>(rt, place);
    Line::new()
        .text(b"card: ")
        .text(what)
        .text(b": '")
        .text(part(&word, 0, 60))
        .byte(b'\'')
        .complain();
    Complained
}

impl Complained {
    // The second line of a complaint: what there is instead.
    pub fn suggest(self, what: &[u8]) -> Complained {
        Line::new().to(6).text(what).complain();
        self
    }
}

// What is wrong with a word, and what there is instead.
#[derive(Clone, Copy)]
struct Wrong {
    what: &'static [u8],
    place: usize,
    instead: &'static [u8],
}

impl Wrong {
    fn new(what: &'static [u8], place: usize, instead: &'static [u8]) -> Wrong {
        Wrong {
            what,
            place,
            instead,
        }
    }

    fn show(self, rt: &impl Env) -> Complained {
        complain(rt, self.what, self.place).suggest(self.instead)
    }
}

impl Expected {
    // Where a word is no such value.
    fn wrong(self, what: &'static [u8], place: usize) -> Wrong {
        let instead: &'static [u8] = match self {
            Expected::Number => b"--controller N counts from 0, and --level N is 0 to 7",
            Expected::Size => b"--size N is how many bytes the card's ROM has",
            Expected::Edition => b"--edition E is 1.00 or 1.01, for a card of version 1",
            Expected::Bytes => b"--password P and --address A are xx:xx:xx:xx:xx:xx in hexadecimal",
            Expected::Word => {
                b"--command C is one to four hexadecimal digits, with 0x before or not"
            }
            Expected::File => b"write SHEET OUT --magic FROM keeps the block of the image FROM",
        };
        Wrong::new(what, place, instead)
    }

    // Where no such value stands behind an option.
    fn missing(self, place: usize) -> Wrong {
        let what: &'static [u8] = match self {
            Expected::Number | Expected::Size => b"no number behind the option",
            Expected::Edition => b"no edition behind the option",
            Expected::Bytes => b"no bytes behind the option",
            Expected::Word => b"no word behind the option",
            Expected::File => b"no file behind the option",
        };
        self.wrong(what, place)
    }
}

const COMMANDS: &[u8] = b"try read, older, walk, sheet, write, widen, narrow, magic, map, dump,
      refusals or help";

const PLAIN_WORDS: &[u8] = b"./card help says which words each takes";

const OPTIONS: &[u8] = b"./card help says which options each takes";

const ALL_OPTIONS: &[u8] =
    b"options: --controller N, --level N, --size N, --edition E, --magic, --wide
      and --force";

const MAGIC_OPTIONS: &[u8] =
    b"options: --password P, --address A, --command C, --size N and --force";

const NEEDED_OPTIONS: &[u8] = b"magic takes all of --password P, --address A and --command C";

const CHIPS: &[u8] = b"the chips are 21041, 21140, 21142, 21143 and 21145";

// ## What the words say

impl Words {
    // A command without its words.
    fn of(command: Command) -> Words {
        Words {
            command,
            places: [None; KEPT],
            chip: None,
            controller: None,
            level: None,
            size: None,
            first_edition: None,
            magic: false,
            from: None,
            wide: false,
            force: false,
            password: None,
            address: None,
            command_word: None,
            block: None,
        }
    }

    // One word more, of a role.
    fn add(&mut self, role: Role, word: &[u8], place: usize) -> Result<(), Wrong> {
        match role {
            Role::Plain => {
                self.keep(place);
                Ok(())
            }
            Role::Named(option) => self.give(option, place),
            Role::Value(option) => self.set(option, word, place),
            Role::Unknown => Err(self.unknown(place)),
        }
    }

    // One plain word more. Past those that are kept it is not counted.
    fn keep(&mut self, place: usize) {
        if let Some(free) = self.places.iter().position(|kept| kept.is_none()) {
            self.places[free] = Some(place);
        }
    }

    // The place of a plain word, counted from 0.
    fn place(&self, number: usize) -> Option<usize> {
        self.places.get(number).copied().flatten()
    }

    // What begins as an option does, and is none.
    fn unknown(&self, place: usize) -> Wrong {
        let instead = if self.command == Command::Magic {
            MAGIC_OPTIONS
        } else {
            ALL_OPTIONS
        };
        Wrong::new(b"no such option", place, instead)
    }

    // Whether an option has been given.
    fn has(&self, option: CommandOption) -> bool {
        match option {
            CommandOption::Controller => self.controller.is_some(),
            CommandOption::Level => self.level.is_some(),
            CommandOption::Size => self.size.is_some(),
            CommandOption::Edition => self.first_edition.is_some(),
            CommandOption::Password => self.password.is_some(),
            CommandOption::Address => self.address.is_some(),
            CommandOption::Command => self.command_word.is_some(),
            CommandOption::Magic => self.magic,
            CommandOption::Force => self.force,
            CommandOption::Wide => self.wide,
        }
    }

    fn give(&mut self, option: CommandOption, place: usize) -> Result<(), Wrong> {
        if !self.command.takes(option) {
            return Err(Wrong::new(b"the command takes no such option", place, OPTIONS));
        }
        if self.has(option) {
            return Err(Wrong::new(
                b"the option is given twice",
                place,
                b"each is given at most once",
            ));
        }
        self.magic |= option == CommandOption::Magic;
        self.force |= option == CommandOption::Force;
        self.wide |= option == CommandOption::Wide;
        Ok(())
    }

    // The value of an option that takes one.
    fn set(&mut self, option: CommandOption, word: &[u8], place: usize) -> Result<(), Wrong> {
        match option {
            CommandOption::Controller => self.controller = Some(byte(word, place)?),
            CommandOption::Level => self.level = Some(byte(word, place)?),
            CommandOption::Size => {
                let wrong = Expected::Size.wrong(b"no number from 0 to 65535", place);
                self.size = Some(value::number(word).ok_or(wrong)?);
            }
            CommandOption::Edition => {
                let wrong = Expected::Edition.wrong(b"no edition of version 1", place);
                self.first_edition = Some(value::first_edition(word).ok_or(wrong)?);
            }
            CommandOption::Password => self.password = Some(bytes(word, place)?),
            CommandOption::Address => self.address = Some(bytes(word, place)?),
            CommandOption::Command => {
                let wrong = Expected::Word.wrong(b"no word of one to four digits", place);
                self.command_word = Some(value::command_word(word).ok_or(wrong)?);
            }
            CommandOption::Magic => self.from = Some(place),
            CommandOption::Force | CommandOption::Wide => {}
        }
        Ok(())
    }

    // Whether there are as many plain words as the command takes.
    fn counted(&self) -> Result<(), Wrong> {
        if self.places.iter().flatten().count() < self.command.fewest() {
            return Err(Wrong::new(b"the command takes more words", COMMAND_AT, PLAIN_WORDS));
        }
        if let Some(most) = self.command.most()
            && let Some(place) = self.place(most)
        {
            return Err(Wrong::new(b"a word too many", place, PLAIN_WORDS));
        }
        Ok(())
    }

    // The chip, for a command that takes one behind its file.
    fn with_chip(&mut self, rt: &impl Env) -> Result<(), Wrong> {
        if self.command.takes_chip()
            && let Some(place) = self.place(1)
        {
            let word = typed::word::<LONGEST>(rt, place);
            let chip = chip_of(&word).ok_or(Wrong::new(b"no such chip", place, CHIPS))?;
            self.chip = Some(chip);
        }
        Ok(())
    }

    // The block, for `magic`, which cannot do without any of its three options.
    fn with_block(&mut self) -> Result<(), Wrong> {
        if self.command == Command::Magic {
            let needed = |what| Wrong::new(what, COMMAND_AT, NEEDED_OPTIONS);
            self.block = Some(Magic {
                password: self
                    .password
                    .ok_or(needed(b"the command needs --password P"))?,
                address: self
                    .address
                    .ok_or(needed(b"the command needs --address A"))?,
                command: self
                    .command_word
                    .ok_or(needed(b"the command needs --command C"))?,
            });
        }
        Ok(())
    }
}

fn byte(word: &[u8], place: usize) -> Result<u8, Wrong> {
    let wrong = Expected::Number.wrong(b"no number from 0 to 255", place);
    value::byte(word).ok_or(wrong)
}

fn bytes(word: &[u8], place: usize) -> Result<[u8; BYTES], Wrong> {
    let wrong = Expected::Bytes.wrong(b"no six bytes with colons between them", place);
    value::six_bytes(word).ok_or(wrong)
}

// ## All words

// What the words ask for, up to the first that is wrong.
fn words_of(rt: &impl Env) -> Result<Words, Wrong> {
    let end = typed::count(rt);
    if end <= COMMAND_AT {
        return Ok(Words::of(Command::Help));
    }
    let word = typed::word::<LONGEST>(rt, COMMAND_AT);
    let no_command = Wrong::new(b"no such command", COMMAND_AT, COMMANDS);
    let command = Command::named(&word).ok_or(no_command)?;
    let mut words = Words::of(command);
    let mut role = Role::Plain;
    for place in COMMAND_AT + 1..end {
        let word = typed::word::<LONGEST>(rt, place);
        role = Role::of(&word, role, command);
        words.add(role, &word, place)?;
    }
    if let Role::Named(option) = role
        && let Some(expected) = option.value(command)
    {
        return Err(expected.missing(end - 1));
    }
    words.counted()?;
    words.with_chip(rt)?;
    words.with_block()?;
    Ok(words)
}

// What the words ask for. Where one is wrong, the first of them has been complained of.
pub fn read(rt: &impl Env) -> Result<Words, Complained> {
    words_of(rt).map_err(|wrong| wrong.show(rt))
}

//! The words of the command line.

ghost use Rattle.std.specs.Prelude.{◌≡◌, map, string_bytes};
ghost use Rattle.round_ll.specs.Commands.{command_of};

/// What the words ask for.
#[derive(Clone, Copy, PartialEq, Eq, Debug, Drop)]
pub enum Command {
    /// Text to dialect module and back.
    Round,
}

impl Command {
    /// The command that these words are, behind the program's name; none where they are none.
    pub fn of(words: &[String]) -> Option<Command>
        ensures { result ≡ command_of (map (λ w. string_bytes w) words.now) }
    {
        match words {
            [word] if word.as_str() == "round" => Some(Command::Round),
            _ => None,
        }
    }
}

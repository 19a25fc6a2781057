ghost use Rattle.std.specs.Prelude.{◌≡◌, bytes_eq, find, map, option_map};
ghost use Rattle.command_spec.specs.Plain.{takes_value};
ghost use Rattle.command_spec.specs.Commands.{command_of, kind_of, name_of, options_of};

/// The commands that have options.
#[derive(Clone, Copy, Debug, PartialEq, Eq)]
pub enum Command {
    Classify,
    Graph,
}

/// An option of a command, by its whole name, the two hyphens included.
#[derive(Clone, Copy, Debug, PartialEq, Eq)]
pub enum CommandOption {
    /// A value stands after the name.
    Valued(&'static str),
    Flag(&'static str),
}

use CommandOption::{Flag, Valued};

const CLASSIFY: &[CommandOption] = &[
    Valued("--line"),
    Valued("--sets"),
    Valued("--ways"),
    Valued("--workers"),
    Valued("--nodes"),
    Valued("--entry"),
    Valued("--start"),
    Valued("--isa"),
    Flag("--contexts"),
];

const GRAPH: &[CommandOption] = &[Valued("--entry"), Valued("--line"), Valued("--isa")];

impl CommandOption {
    /// The whole name.
    pub fn name(&self) -> &'static str
        ensures { result.now ≡ (kind_of self.now).name }
    {
        match self {
            Valued(name) | Flag(name) => name,
        }
    }

    /// Whether a value stands after the name.
    pub fn takes_value(&self) -> bool
        ensures { result ≡ (kind_of self.now).takes_value }
    {
        matches!(self, Valued(_))
    }
}

impl Command {
    /// The command of a name.
    pub fn of_name(name: &str) -> Option<Command>
        ensures { result ≡ command_of name.now }
    {
        match name {
            "classify" => Some(Command::Classify),
            "graph" => Some(Command::Graph),
            _ => None,
        }
    }

    /// The argument that names the command.
    pub fn name(self) -> &'static str
        ensures { result.now ≡ name_of self }
    {
        match self {
            Command::Classify => "classify",
            Command::Graph => "graph",
        }
    }

    /// The options of the command.
    #[tactic(auto, unfolding(crate::specs::Commands::options_of))]
    pub fn options(self) -> &'static [CommandOption]
        ensures { map kind_of result.now ≡ options_of self }
    {
        match self {
            Command::Classify => CLASSIFY,
            Command::Graph => GRAPH,
        }
    }

    /// Whether a value stands after this option of the command. `None` where the command has no such option.
    pub fn takes_value(self, option: &str) -> Option<bool>
        ensures { result ≡ takes_value (options_of self) option.now }
    {
        match find(self.options(), option) {
            Some(found) => Some(found.takes_value()),
            None => None,
        }
    }
}

/// The first option of a name.
fn find<'a>(options: &'a [CommandOption], name: &str) -> Option<&'a CommandOption>
    ensures { option_map (λ o. o.now) result ≡ find (λ o. bytes_eq name.now (kind_of o).name) options.now }
{
    options.iter().find(|option| name == option.name())
}

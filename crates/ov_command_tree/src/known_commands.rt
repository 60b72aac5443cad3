ghost use Rattle.std.specs.Prelude.{◌≡◌};
ghost use Rattle.ov_command_tree.specs.CommandNames.{is_command, reads_file};

use crate::clap_commands_and_help::file_commands;
use crate::grow_and_sweep_clap_commands::GrowingCommand;
use crate::grow_and_sweep_option_tables::option_of;
use crate::help_and_version::CommandTopic;

/// Whether a command that `read_arguments` reads has this name.
pub fn is_command(word: &str) -> bool
    ensures { result ≡ is_command word.now }
{
    reads_file(CommandTopic::named(word))
}

/// Whether it is a command, and none of those that grow overlays.
fn reads_file(command: Option<CommandTopic>) -> bool
    ensures { result ≡ reads_file command }
{
    match command {
        None | Some(CommandTopic::Grow | CommandTopic::Sweep) => false,
        Some(_) => true,
    }
}

impl CommandTopic {
    /// Whether the command has an option of this name.
    pub(crate) fn has_option(self, name: &str) -> bool {
        match GrowingCommand::of(self.name()) {
            Some(command) => option_of(command, name).is_some(),
            None => is_file_option(self.name(), name),
        }
    }
}

/// Whether the command of the first name, which reads a file, has an option of the second one.
fn is_file_option(command: &str, name: &str) -> bool {
    for row in file_commands() {
        if row.name == command {
            return row.options.iter().any(|option| option.name == name);
        }
    }
    false
}

use ov_command_tree::is_command;
use ov_lines::{command_tip, is_folder, kind_of_file};
use ov_reasons::{print_folder_tip, print_tip};

/// The word that asks for help, in place of a command.
const HELP: &str = "help";

/// Prints which command reads the file that the first argument names, or that it names a folder, if it stands where a
/// command must, and there is such a file or folder.
pub fn print_command_tip(rt: &HostRuntime, arguments: &[String]) {
    let Some(first) = arguments.first() else {
        return;
    };
    let path = first.as_str();
    if is_command(path) || path == HELP || path.starts_with('-') {
        return;
    }
    match kind_of_file(rt, path) {
        Some(kind) => print_tip(rt, command_tip(rt.alloc(), kind, path)),
        None if is_folder(rt, path) => print_folder_tip(rt, path),
        None => {}
    }
}

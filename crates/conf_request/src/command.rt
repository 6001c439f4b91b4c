//! The commands.
ghost use Rattle.std.specs.Prelude.{◌≡◌};
ghost use Rattle.conf_request.specs.Words.{command_named};

/// A command.
#[derive(Clone, Copy)]
pub enum Command {
    /// Finds a best configuration.
    Solve,
    /// Finds the one that changes least after failures.
    Reconfigure,
    /// Checks a log.
    Check,
    /// Evaluates a model at a configuration.
    Verify,
    /// Makes a model and solves it.
    Gen,
    /// Reconfigures after each event of a file.
    Session,
    /// Finds constraints that are to blame.
    Core,
}

/// The command of this name.
pub fn command_named(word: &str) -> Option<Command>
    ensures { result ≡ command_named word.now }
{
    if word == "solve" {
        Some(Command::Solve)
    } else if word == "reconfigure" {
        Some(Command::Reconfigure)
    } else if word == "check" {
        Some(Command::Check)
    } else if word == "verify" {
        Some(Command::Verify)
    } else if word == "gen" {
        Some(Command::Gen)
    } else if word == "session" {
        Some(Command::Session)
    } else if word == "core" {
        Some(Command::Core)
    } else {
        None
    }
}

//! Laws of commands, each the contract of a function that does nothing.
ghost use Rattle.tool_script.specs.CallLaws.{CallsAreCommands};
ghost use Rattle.tool_script.specs.CommandLaws.{TermsTellCommands};

/// States that different commands have different terms.
pub fn terms_tell_commands()
    ensures { TermsTellCommands }
{}

/// States that the reply to a session's request is what the call of a table returns, and leaves the same table.
pub fn a_call_is_a_command()
    ensures { CallsAreCommands }
{}

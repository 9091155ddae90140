//! Laws of audits.

ghost use Rattle.vsi_audit.specs.Laws.{CompiledHasCommands};

/// An image with the fields of a compiled one, such as one that was read back from its bytes, is
/// never refused as code without commands.
pub fn compiled_has_commands()
    ensures { CompiledHasCommands }
{}

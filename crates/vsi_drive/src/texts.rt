//! The line of output that says why a run doesn't begin.

ghost use Rattle.std.specs.Prelude.{◌≡◌, ◌++◌, IfOk, OnOk};
ghost use Rattle.vsi_drive.specs.Settings as settings;
ghost use Rattle.vsi_drive.specs.Starts as starts;

use crate::boundary::{BoundaryFault, StartFault};
use crate::settings::LineFault;
use std::alloc::{AllocError, Global};
use vsi_syntax::put_number;

/// Adds a name, a space and a number.
fn put_numbered(text: &mut Vec<u8>, name: &[u8], number: usize) -> Result<(), AllocError>
    ensures { OnOk result (text.new.items ≡ text.old.items ++ settings.numbered name.now number) }
{
    text.extend_from_slice(name)?;
    text.extend_from_slice(b" ")?;
    put_number(text, number)
}

/// Adds the number, the name and the field of a fault.
fn put_fault(text: &mut Vec<u8>, fault: StartFault) -> Result<(), AllocError>
    ensures { OnOk result (text.new.items ≡ text.old.items ++ starts.start_fault_name fault) }
{
    match fault {
        StartFault::Setting(LineFault::TooLong) => text.extend_from_slice(b"44 LineTooLong"),
        StartFault::Setting(LineFault::BadSetting(n)) => put_numbered(text, b"45 BadSetting", n),
        StartFault::Setting(LineFault::UnknownGlobal(n)) => put_numbered(text, b"46 NoGlobal", n),
        StartFault::Setting(LineFault::AboveClass(n)) => put_numbered(text, b"47 AboveClass", n),
        StartFault::Setting(LineFault::NotAnInput(n)) => put_numbered(text, b"60 NotAnInput", n),
        StartFault::Setting(LineFault::NotANumber(n)) => put_numbered(text, b"48 NoNumber", n),
        StartFault::Boundary(fault) => match fault {
            BoundaryFault::UnknownInput(n) => put_numbered(text, b"61 UnknownInput", n),
            BoundaryFault::InputAboveClass(n) => put_numbered(text, b"62 InputAboveClass", n),
            BoundaryFault::UnknownOutput(n) => put_numbered(text, b"63 UnknownOutput", n),
            BoundaryFault::OutputAboveClass(n) => put_numbered(text, b"64 OutputAboveClass", n),
            BoundaryFault::NotAnOutput(n) => put_numbered(text, b"65 NotAnOutput", n),
        },
        StartFault::Unnamed(i) => put_numbered(text, b"56 GlobalNotNamed", i),
    }
}

/// The line that says why a run doesn't begin.
pub fn start_fault_line(alloc: Global, fault: StartFault) -> Result<Vec<u8>, AllocError>
    ensures { IfOk result (λ text. text.items ≡ starts.start_fault_line fault) }
{
    let mut text = Vec::from_slice(alloc, b"refused: ")?;
    put_fault(&mut text, fault)?;
    text.extend_from_slice(b"\n")?;
    Ok(text)
}

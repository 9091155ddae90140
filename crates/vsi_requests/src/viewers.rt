//! The lattice, the class and the image of a request that runs an image.

ghost use Rattle.std.specs.Prelude.{IfErr, IfOk, ◌⊎◌};
ghost use Rattle.vsi_subject.specs.{Refusals.{RefusesLattice, FailsBy, LacksClassAt, RefusesImage}, Holding.{IsImageAt}, Files.{LooksAt}};

use vsi_image::Verified;
use vsi_lattice::{Class, Lattice};
use vsi_subject::{Failure, Fallible, Files, InputKind, Subject, class_in, declared_lattice};

/// The message if an image is given where the lattice file should be.
const EXCHANGED: &str = "\
error: the first file is an image, and should be the lattice file

Usage: vsi drive [OPTIONS] --class <C> <LATTICE> <IMAGE>

For more information, try '--help'.
";

/// Whether bytes begin as those of an image do, with its magic bytes and its version. No lattice
/// file does, since a version is a control byte.
fn begins_image(bytes: &[u8]) -> bool {
    matches!(bytes, [b'V', b'S', b'I', version, ..] if *version < b' ')
}

/// The lattice of a file, the class of the viewer or the driver, and the image that it views or
/// drives. A drive may not give an image in place of the lattice file. The image is read only if
/// the lattice has the class.
pub(crate) fn policy_and_image<'a, F: Files>(
    subject: &Subject<'_, F>,
    lattice: &'a str,
    class: &'a str,
    image: &'a str,
    is_drive: bool,
) -> Fallible<'a, (Lattice, Class, Verified)>
    ensures looks { IfOk result
        (λ seen. LooksAt (F.holds subject.now.files.now) lattice.now class.now seen.0 seen.1) }
    ensures held { IfOk result
        (λ seen. IsImageAt (F.holds subject.now.files.now) image.now seen.2) }
    ensures failed { IfErr result (FailsBy (λ reason.
        RefusesLattice (F.holds subject.now.files.now) lattice.now reason
        ⊎ RefusesImage (F.holds subject.now.files.now) image.now reason)
        (LacksClassAt (F.holds subject.now.files.now) lattice.now class.now)) }
{
    let bytes = subject.bytes_in(InputKind::Lattice, lattice)?;
    let is_exchanged = is_drive && begins_image(bytes.as_slice());
    if is_exchanged {
        let text = String::from_str(subject.alloc, EXCHANGED)?;
        return Err(Failure::Usage(text));
    }
    let classes = declared_lattice(subject.alloc, bytes.as_slice())?;
    let viewer = class_in(&classes, class)?;
    let verified = subject.image_in(image)?;
    Ok((classes, viewer, verified))
}

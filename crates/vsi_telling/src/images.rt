//! The explanation of a refused image, and of a refused store file for one.

use crate::parts::key_place;
use crate::telling::{Part, Telling, Told};
use std::alloc::AllocError;
use vsi_answers::Fault;
use vsi_image::{DecodeError, VerifyError};
use vsi_store::{StoreError, ViewError};
use vsi_syntax::Span;

/// The globals of an image, by their names and the names of their classes.
type Globals<'g> = &'g [(Vec<u8>, Vec<u8>)];

/// An example of a store file.
const SHAPE: Part<'static> = Part::Text(
    b"A store file has a line for each global that doesn't begin as 0:\n  x = 1\n  y = -5\n",
);

/// The hint for another sort of file in the place of a store file.
fn file_hint(bytes: &[u8]) -> &'static [u8] {
    if bytes.starts_with(b"VSI") {
        b"Hint: this is an image. Give a store file with --store.\n"
    } else if bytes.trim_ascii_start().starts_with(b"var") {
        b"Hint: this looks like a source text, not a store file.\n"
    } else {
        b""
    }
}

/// The explanation of an image whose bytes aren't as they were, or that isn't valid.
fn image_words(fault: &Fault) -> &'static str {
    match fault {
        Fault::Decode(DecodeError::BadVersion) => {
            "The image has a version that this program doesn't know. Hint: build it again from \
            its source text, or use the newer program that made it.\n"
        }
        Fault::Decode(_) => {
            "The image was changed or cut off, or another program made it. Hint: build it again \
            from its source text with `vsi build LATTICE SOURCE IMAGE`.\n"
        }
        Fault::Verify(VerifyError::Unencodable(_)) => {
            "No file can hold this image. Hint: keep to 256 globals, 512 slots, 256 operands and \
            65535 instructions, and to names that the language allows.\n"
        }
        Fault::View(ViewError::ClassNotInLattice(_)) => {
            "A global of the image has a class that the lattice file lacks. Hint: give the \
            lattice file with which the image was built; `vsi list IMAGE` shows each global with \
            its class.\n"
        }
        Fault::View(_) => {
            "The store doesn't have one number for each global of the image. Hint: pass one for \
            each, in the order of the declarations.\n"
        }
        _ => {
            "The image was changed, or was made by hand, and isn't run. Hint: build it again from \
            its source text; if it came from someone else, don't trust it.\n"
        }
    }
}

impl Telling<'_> {
    /// Adds that an image with these globals has no such one, and what to do.
    pub fn put_no_global<'x>(
        &mut self,
        globals: Globals<'x>,
        name: &'x [u8],
        otherwise: &'static str,
        place: Option<Span>,
    ) -> Told {
        let names = globals.iter().map(|(name, _)| name.as_slice());
        let names: Vec<&[u8]> = names.collect(self.alloc)?;
        let quoted = Part::Quoted(name);
        if names.is_empty() {
            let hint = Part::Text(otherwise.as_bytes());
            return self.tell(place, "The image has no global %.\n%", &[quoted, hint]);
        }
        let nearest = Part::Nearest(name, &names, otherwise);
        let sentence = "The image has no global %. Its globals are %.\n%";
        self.tell(place, sentence, &[quoted, Part::Names(&names), nearest])
    }

    /// Adds the explanation of a refused store file for an image, and answers where it is wrong.
    pub(crate) fn put_store(&mut self, globals: Globals<'_>, error: &StoreError) -> Told {
        match error {
            StoreError::Memory => Err(AllocError),
            StoreError::NotToml => {
                let sentence = "The file isn't a TOML document, a key is in it twice, or a number \
                    doesn't fit 64 bits.\n%%";
                self.tell(None, sentence, &[Part::Text(file_hint(self.bytes)), SHAPE])
            }
            StoreError::NotANumber(key) => self.tell(
                key_place(self.bytes, key),
                "The value of % isn't a whole number. Hint: write it without quotes and without a \
                decimal point, as in 4 or -4.\n%",
                &[Part::Quoted(key), SHAPE],
            ),
            StoreError::UnknownGlobal(key) => {
                let place = key_place(self.bytes, key);
                self.put_no_global(globals, key, "Hint: remove the line.\n", place)
            }
        }
    }

    /// Adds the explanation of any other refused file, and answers where it is wrong.
    pub fn put_file(&mut self, fault: &Fault) -> Told {
        match fault {
            Fault::Lattice(error) => self.put_lattice(*error),
            Fault::Store(error) => self.put_store(&[], error),
            Fault::Decode(DecodeError::Memory) | Fault::View(ViewError::Memory) => Err(AllocError),
            Fault::Decode(DecodeError::BadMagic) => {
                let start = self.bytes.trim_ascii_start();
                let begins_with = |word: &[u8]| start.starts_with(word);
                if begins_with(b"var") || begins_with(b"letvar") || begins_with(b"#") {
                    let path = Part::Text(self.path);
                    let stem = Part::Text(self.path.strip_suffix(b".vsi").unwrap_or(self.path));
                    return self.tell(
                        None,
                        "The file looks like a source text, not an image. Hint: first `vsi build \
                        LATTICE % %.image`, then name %.image here, as in `vsi run %.image \
                        --budget 1000`.\n",
                        &[path, stem, stem, stem],
                    );
                }
                let sentence = if begins_with(b"classes") || begins_with(b"below") {
                    "The file looks like a lattice file, not an image. Hint: see `vsi help` for \
                    the order of the files.\n"
                } else {
                    "The file isn't an image: it doesn't begin with `VSI`. Hint: make one with \
                    `vsi build LATTICE SOURCE IMAGE`, and see `vsi help` for the order of the \
                    files.\n"
                };
                self.tell(None, sentence, &[])
            }
            other => self.tell(None, image_words(other), &[]),
        }
    }
}

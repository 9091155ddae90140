//! Warnings about a lattice that says, by its names, something else than its author may mean. A
//! lattice with a warning is as good as any other.

use crate::roles::name_of;
use std::alloc::{AllocError, Global};
use vsi_conform::put_parts;
use vsi_lattice::{Class, Classes, Lattice};

/// Names for classes that everyone sees, in small letters.
const LOW: &[u8] = b"l low public open everyone guest unclassified bottom";

/// Names for classes that few see, in small letters.
const HIGH: &[u8] = b"h high secret topsecret private confidential owner admin top";

/// The end of the warning about two names.
const ALIKE: &[u8] = b" are different classes with names that look alike\n";

/// The end of the warning about a viewer and a class whose names say the opposite.
const REVERSED: &[u8] = b": is the order reversed?\n";

/// A name as it is compared with others: its letters small, and the same for those that look alike,
/// without `_`.
fn plain_name(alloc: Global, name: &[u8]) -> Result<Vec<u8>, AllocError> {
    let mut plain = Vec::new(alloc);
    for letter in name {
        let plain_letter = match *letter {
            b'_' => continue,
            b'0' | b'O' | b'o' => b'o',
            b'1' | b'I' | b'i' | b'L' | b'l' => b'l',
            b'5' | b'S' | b's' => b's',
            b'2' | b'Z' | b'z' => b'z',
            b'8' | b'B' | b'b' => b'b',
            other => other.to_ascii_lowercase(),
        };
        plain.push(plain_letter)?;
    }
    Ok(plain)
}

/// Whether a name is one of these, whatever the size of its letters and where its `_` are.
fn is_one_of(name: &[u8], words: &[u8]) -> bool {
    words.split(|byte| *byte == b' ').any(|word| {
        let letters = name.iter().filter(|letter| **letter != b'_');
        let small = letters.map(|letter| letter.to_ascii_lowercase());
        small.eq(word.iter().copied())
    })
}

/// The warnings about a lattice: that it has one class alone, that two names look alike, and that a
/// class with a name for secrets is at or below one with a name for the public. An error means that
/// memory ran out.
pub fn policy_warnings(alloc: Global, lattice: &Lattice) -> Result<Vec<u8>, AllocError> {
    let mut text = Vec::new(alloc);
    if lattice.count() == 1 {
        text.extend_from_slice(b"warning: there is only one class, so every flow is allowed\n")?;
    }
    for class in 0..lattice.count() {
        let name = name_of(lattice, class);
        let plain = plain_name(alloc, name)?;
        for other in 0..lattice.count() {
            let second = name_of(lattice, other);
            if class < other && plain_name(alloc, second)?.as_slice() == plain.as_slice() {
                put_parts(&mut text, &[b"warning: ", name, b" and ", second, ALIKE])?;
            }
            let is_seen = lattice.leq(Class::at(other as u8), Class::at(class as u8));
            if is_seen && is_one_of(name, LOW) && is_one_of(second, HIGH) {
                put_parts(
                    &mut text,
                    &[b"warning: ", name, b" sees ", second, REVERSED],
                )?;
            }
        }
    }
    Ok(text)
}

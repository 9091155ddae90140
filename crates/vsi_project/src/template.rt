//! The files of a new project: a small controller of a lock.

use crate::reader::is_program_name;
use std::alloc::{AllocError, Global};

/// The files: their names and their contents.
const FILES: [(&str, &[u8]); 5] = [
    (
        "vsi.toml",
        b"# The programs of this project, and how `vsi check` judges each of them.\n\
lattice = \"policy.toml\"\n\n[programs.lock]\nsource = \"lock.vsi\"\ninterface = \"lock.toml\"\n\
profile = \"steady\"\nbounded = true\nstore = \"start.toml\"\n",
    ),
    (
        "policy.toml",
        b"# The classes of the variables: whoever may see Secret may see Public too.\n\
classes = [\"Public\", \"Secret\"]\nbelow = [[\"Public\", \"Secret\"]]\n",
    ),
    (
        "lock.vsi",
        b"# One cycle of a lock, which opens at the right code until 3 codes were wrong.\n\
var typed : Public;   # the keypad: 1 if a code was typed in this cycle, else 0\n\
var code : Public;    # the code that was typed\nvar key : Secret;\n\
var misses : Secret;  # wrong codes since the door last opened, at most 3\n\
var bolt : Secret;    # the actuator: 1 opens the door, 0 locks it\n\n\
if typed then\n  letvar right := code = key in\n    letvar free := misses < 3 in {\n      \
bolt := right * free;\n      misses := (misses + free * (1 - right)) * (1 - bolt)\n    }\n\
else bolt := 0;\n\ntyped := 0;\ncode := 0\n",
    ),
    (
        "lock.toml",
        b"# The requirements on the lock; `released` lists the outputs that reveal secrets.\n\
lattice = \"policy.toml\"\nprofile = \"steady\"\nbounded = true\nglobals = [\n  \
[\"typed\", \"Public\"],\n  [\"code\", \"Public\"],\n  [\"key\", \"Secret\"],\n  \
[\"misses\", \"Secret\"],\n  [\"bolt\", \"Secret\"],\n]\n\n[[runs]]\n\
store = { typed = 1, code = 4711, key = 4711 }\nbudget = 200\nexpect = { bolt = 1, misses = 0 }\n\n\
[[runs]]\nstore = { typed = 1, code = 1234, key = 4711 }\nbudget = 200\n\
expect = { bolt = 0, misses = 1 }\n\n[[cycle]]\nclass = \"Public\"\n\
inputs = [\"typed\", \"code\"]\noutputs = [\"bolt\"]\nreleased = [\"bolt\"]\n",
    ),
    (
        "start.toml",
        b"# The store that the lock starts with: every other global is 0.\nkey = 4711\n",
    ),
];

/// The paths of the files of a new project with this name, in the folder NAME, and their contents;
/// nothing if a program can't have this name.
pub fn new_project(
    alloc: Global,
    name: &str,
) -> Result<Option<Vec<(String, &'static [u8])>>, AllocError> {
    if !is_program_name(name) {
        return Ok(None);
    }
    let mut files = Vec::new(alloc);
    for (file, bytes) in FILES {
        files.push((format!(in alloc; "{name}/{file}")?, bytes))?;
    }
    Ok(Some(files))
}

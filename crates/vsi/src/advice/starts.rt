//! The explanation of a run that doesn't begin: of a setting, of a list of names, and of a store
//! that isn't full.

use vsi_drive::{BoundaryFault, LineFault, StartFault};
use vsi_image::Image;
use vsi_syntax::Span;
use vsi_telling::Part::{Quoted, Text};
use vsi_telling::{Part, Telling, Told, part_of, span_at};

/// The part of a setting without blanks at its ends.
fn trimmed(setting: &[u8], part: Span) -> Span {
    let text = part_of(setting, part);
    let left = text.trim_ascii_start();
    let blanks = text.len().saturating_sub(left.len());
    span_at(
        part.start.saturating_add(blanks),
        left.trim_ascii_end().len(),
    )
}

/// The advice for a setting that doesn't have the required form.
fn form_hint(setting: &[u8], name: &[u8], value: &[u8]) -> &'static [u8] {
    if name.ends_with(b":") {
        return b"Hint: leave out the `:`, since a setting isn't an assignment.\n";
    }
    if value.contains(&b'=') {
        return b"Hint: give each global a `--set` of its own.\n";
    }
    if !setting.contains(&b'=') || value.is_empty() {
        return b"Hint: write the number after a `=`, as in `--set x=1`.\n";
    }
    if name.is_empty() {
        return b"Hint: write the name of a global before the `=`, as in `--set x=1`.\n";
    }
    b"Hint: write one name and one number, as in `--set x=1`.\n"
}

/// The advice for a value that isn't a number.
fn number_hint(value: &[u8]) -> &'static [u8] {
    if value.starts_with(b"+") {
        return b"Hint: leave out the `+`.\n";
    }
    let digits = value.strip_prefix(b"-").unwrap_or(value);
    if !digits.is_empty() && digits.iter().all(|byte| byte.is_ascii_digit()) {
        return b"Hint: use a number that fits 64 bits.\n";
    }
    if value.contains(&b'.') {
        return b"Hint: leave out the point, since there are only whole numbers.\n";
    }
    b"Hint: write digits, after a `-` if it is below 0; a setting takes a number, not a name \
    or an expression.\n"
}

/// Explains a setting with this fault.
fn bad_setting(telling: &mut Telling<'_>, image: &Image, fault: LineFault) -> Told {
    let setting = telling.bytes;
    let stop = setting.len();
    let at = setting.iter().position(|byte| *byte == b'=');
    let at = at.unwrap_or(stop);
    let start = stop.min(at.saturating_add(1));
    let before = trimmed(setting, span_at(0, at));
    let after = trimmed(setting, Span { start, stop });
    let (name, value) = (part_of(setting, before), part_of(setting, after));
    match fault {
        LineFault::UnknownGlobal(_) => telling.put_no_global(
            &image.globals,
            name,
            "Hint: leave out the setting; a local variable has no value before the run.\n",
            Some(before),
        ),
        LineFault::NotANumber(_) => telling.tell(
            Some(after),
            "% isn't a whole number from -9223372036854775808 to 9223372036854775807.\n%",
            &[Quoted(value), Text(number_hint(value))],
        ),
        LineFault::AboveClass(_) | LineFault::NotAnInput(_) => telling.tell(
            Some(before),
            "% isn't an input. With --interface a setting sets only the inputs of the class.\n\
            Hint: leave the setting out, or give the number in the store file of --store.\n",
            &[Quoted(name)],
        ),
        LineFault::BadSetting(_) | LineFault::TooLong => telling.tell(
            Some(span_at(0, setting.len())),
            "A setting is NAME=NUMBER: the name of a global, `=`, and a whole number.\n%",
            &[Text(form_hint(setting, name, value))],
        ),
    }
}

/// Adds the explanation of a faulty list, and returns the part with the name at fault.
fn bad_list(telling: &mut Telling<'_>, image: &Image, fault: BoundaryFault) -> Told {
    let list = telling.bytes;
    let (number, sentence) = match fault {
        BoundaryFault::NotAnOutput(number) => (
            number,
            "The global % isn't one of the outputs.\nHint: add it to --outputs, or leave it out of \
            --release if nobody is to see it.\n",
        ),
        BoundaryFault::UnknownOutput(number) | BoundaryFault::OutputAboveClass(number) => (
            number,
            "The class of % is %, which isn't at or below the class given by --class.\n\
            Hint: leave the name out or, if whoever reads the output may learn its value,\n\
            add it to --release.\n",
        ),
        BoundaryFault::UnknownInput(number) | BoundaryFault::InputAboveClass(number) => (
            number,
            "The class of % is %, which isn't at or below the class given by --class.\n\
            Hint: leave the name out, or let a class set it that is above this one.\n",
        ),
    };
    let mut part = span_at(list.len(), 0);
    let mut start: usize = 0;
    for (at, name) in list.split(|byte| *byte == b',').enumerate() {
        if at == number {
            part = span_at(start, name.len());
            break;
        }
        start = start.saturating_add(name.len()).saturating_add(1);
    }
    let name = part_of(list, part);
    let mut globals = image.globals.iter();
    let Some((_, class)) = globals.find(|global| global.0.as_slice() == name) else {
        let otherwise = "Hint: leave the name out of the list.\n";
        return telling.put_no_global(&image.globals, name, otherwise, Some(part));
    };
    telling.tell(Some(part), sentence, &[Quoted(name), Quoted(class)])
}

/// Adds the explanation of a run of an image that doesn't begin, and returns the position of the
/// fault in its setting or its list.
pub(crate) fn of_start(telling: &mut Telling<'_>, image: &Image, fault: StartFault) -> Told {
    match fault {
        StartFault::Unnamed(number) => {
            let name: &[u8] = match image.globals.get(number) {
                Some((name, _)) => name.as_slice(),
                None => b"",
            };
            let sentence = "The global % has no value. With --full-store each global needs a line \
                in the store file or a `--set`.\nHint: add `--set %=0` to the command, or the line \
                `% = 0` to a store file, with the value that you mean.\n";
            telling.tell(None, sentence, &[Quoted(name), Text(name), Text(name)])
        }
        StartFault::Boundary(fault) => bad_list(telling, image, fault),
        StartFault::Setting(fault) => bad_setting(telling, image, fault),
    }
}

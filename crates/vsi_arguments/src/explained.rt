//! The pages of `vsi explain`: what each refusal means, and the language with its files.

ghost use Rattle.std.specs.Prelude.{◌≡◌, ◌↔◌, ◌<◌, IfOk, IsSome, Some, length, map, option_map, slice_get, true};
ghost use Rattle.vsi_arguments.specs.Asked as asked_spec;
ghost use Rattle.vsi_arguments.specs.Pages as pages_spec;
ghost use Rattle.vsi_arguments.specs.Refusals as spec;

mod files;
mod store;
mod subjects;
mod text;

use crate::arguments::number_in;
use files::{IMAGE, LATTICE};
use store::STORE;
pub use subjects::subject_page;
use text::TEXT;

/// Pages of refusals, as rows: a text; or a small program, `add` or `sum`, a text, and an example
/// that comes after the lines that build the program's image. Each page ends with a line feed,
/// which its row leaves out.
macro_rules! pages {
    (@ $text:literal) => { concat!($text, "\n") };
    (@ add $text:literal $example:literal) => {
        pages! { @ "add" "var x : L; var h : H; x := x + 2" $text $example }
    };
    (@ sum $text:literal $example:literal) => {
        pages! { @ "sum" "var x : L; var y : L; var h : H; x := x + y; h := x" $text $example }
    };
    (@ $name:literal $source:literal $text:literal $example:literal) => {
        concat!($text, "\n\n",
            "  $ printf 'classes = [\"L\", \"H\"]\\nbelow = [[\"L\", \"H\"]]\\n' > two.toml\n",
            "  $ printf '", $source, "' > ", $name, ".vsi\n",
            "  $ vsi build two.toml ", $name, ".vsi ", $name, ".image", $example, "\n")
    };
    ($({ $($page:tt)* })*) => { [$(pages! { @ $($page)* }),*] };
}

pub(crate) use pages;

/// The page at a place, counted from 0, if there are as many pages.
fn page_at(pages: &[&'static str], place: u64) -> Option<&'static str>
    ensures known { IsSome result ↔ place < length pages.now }
    ensures exact { option_map (λ page. page.now) result
        ≡ slice_get (map (λ page. page.now) pages.now) place }
{
    pages.get(place as usize).copied()
}

/// The page of a refusal, by its number: a line with its number, its name and its fields, then
/// their meaning, what to do, and a transcript that shows it. Each line ends with a line feed and
/// has at most 80 bytes of ASCII.
pub fn page(number: u64) -> Option<&'static str>
    ensures known { IsSome result ↔ (spec.is_refusal number ≡ true) }
    ensures exact { option_map (λ page. page.now) result ≡ pages_spec.page_of number }
{
    match number {
        1..=10 => page_at(&LATTICE, number - 1),
        11..=22 => page_at(&TEXT, number - 11),
        25 => page_at(&TEXT, 12),
        26..=38 => page_at(&IMAGE, number - 26),
        39..=48 => page_at(&STORE, number - 39),
        49..=51 => page_at(&IMAGE, number - 36),
        56 => page_at(&STORE, 10),
        60..=65 => page_at(&STORE, number - 49),
        _ => None,
    }
}

/// The mistake of an argument that is neither a number nor a subject.
const NO_SUBJECT: &str = "`explain` takes the number of a refusal, as in 25, or one of language, \
    lattice, store, interface, classes and profiles";

/// The page that an argument names; or the mistake, if it names none.
pub(crate) fn named_page(argument: &str) -> Result<&'static str, &'static str>
    ensures { IfOk result (λ page. asked_spec.named_page argument.now ≡ Some page.now) }
{
    if let Some(page) = subject_page(argument.as_bytes()) {
        return Ok(page);
    }
    let number = number_in(argument.as_bytes()).ok_or(NO_SUBJECT)?;
    page(number).ok_or("no refusal has this number")
}

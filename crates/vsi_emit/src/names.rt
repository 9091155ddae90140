//! Which names a function may have.

ghost use Rattle.std.specs.Prelude.{◌≡◌, bytes_eq};
ghost use Rattle.vsi_emit.specs.Names as spec;

/// The array of these texts.
macro_rules! words {
    ($($word:literal)*) => { [$($word),*] };
}

/// The keywords of C up to C23 and of C++ up to C++23, with those of C++ for operators.
const KEYWORDS: [&[u8]; 97] = words! {
    b"alignas" b"alignof" b"and" b"and_eq" b"asm" b"auto" b"bitand" b"bitor" b"bool" b"break"
    b"case" b"catch" b"char" b"char16_t" b"char32_t" b"char8_t" b"class" b"co_await"
    b"co_return" b"co_yield" b"compl" b"concept" b"const" b"const_cast" b"consteval"
    b"constexpr" b"constinit" b"continue" b"decltype" b"default" b"delete" b"do" b"double"
    b"dynamic_cast" b"else" b"enum" b"explicit" b"export" b"extern" b"false" b"float" b"for"
    b"friend" b"goto" b"if" b"import" b"inline" b"int" b"long" b"module" b"mutable" b"namespace"
    b"new" b"noexcept" b"not" b"not_eq" b"nullptr" b"operator" b"or" b"or_eq" b"private"
    b"protected" b"public" b"register" b"reinterpret_cast" b"requires" b"restrict" b"return"
    b"short" b"signed" b"sizeof" b"static" b"static_assert" b"static_cast" b"struct" b"switch"
    b"template" b"this" b"thread_local" b"throw" b"true" b"try" b"typedef" b"typeid" b"typename"
    b"typeof" b"typeof_unqual" b"union" b"unsigned" b"using" b"virtual" b"void" b"volatile"
    b"wchar_t" b"while" b"xor" b"xor_eq"
};

/// Whether the byte is a letter.
fn is_letter(byte: u8) -> bool
    ensures { result ≡ spec.is_letter byte }
{
    (b'A' <= byte && byte <= b'Z') || (b'a' <= byte && byte <= b'z')
}

/// Whether each byte may be in a name.
fn all_name_bytes(name: &[u8]) -> bool
    ensures { result ≡ spec.are_name_bytes name.now }
{
    let mut rest = name;
    while let [byte, after @ ..] = rest {
        if !is_letter(*byte) && !(b'0' <= *byte && *byte <= b'9') && *byte != b'_' {
            return false;
        }
        rest = after;
    }
    true
}

/// Whether the name is one of these words.
fn is_any(words: &[&[u8]], name: &[u8]) -> bool
    ensures { result ≡ spec.is_any words.now name.now }
{
    for word in words {
        if *word == name {
            return true;
        }
    }
    false
}

/// Whether the name is a keyword.
#[tactic(auto, unfolding(crate::specs::Names::is_keyword))]
fn is_keyword(name: &[u8]) -> bool
    ensures { result ≡ spec.is_keyword name.now }
{
    is_any(&KEYWORDS, name)
}

/// Whether functions may have the name: it has letters, digits and underscores, of which the first
/// is a letter, and is no keyword of C or C++.
pub fn is_function_name(name: &[u8]) -> bool
    ensures { result ≡ spec.is_function_name name.now }
{
    match name {
        [first, ..] => is_letter(*first) && all_name_bytes(name) && !is_keyword(name),
        [] => false,
    }
}

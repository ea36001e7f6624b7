//! Texts of JSON that are written token by token (RFC 8259).

use crate::checks::check_bytes;
use book_json_texts::CompactText;
use std::alloc::AllocError;

/// Strings, and what is written for each: every control byte, quotes, backslashes, characters of one to four bytes, and
/// line ends within, over and behind the first sixteen bytes.
const STRINGS: &[(&str, &str)] = &[
    ("", "\"\""),
    ("say \"a\\b\"", "\"say \\\"a\\\\b\\\"\""),
    (
        "\u{0}\u{1}\u{2}\u{3}\u{4}\u{5}\u{6}\u{7}\u{8}\t\n\u{b}\u{c}\r\u{e}\u{f}",
        "\"\\u0000\\u0001\\u0002\\u0003\\u0004\\u0005\\u0006\\u0007\\b\\t\\n\\u000b\\f\\r\\u000e\\u000f\"",
    ),
    (
        "\u{10}\u{11}\u{12}\u{13}\u{14}\u{15}\u{16}\u{17}\u{18}\u{19}\u{1a}\u{1b}\u{1c}\u{1d}\u{1e}\u{1f}",
        "\"\\u0010\\u0011\\u0012\\u0013\\u0014\\u0015\\u0016\\u0017\\u0018\\u0019\\u001a\\u001b\\u001c\\u001d\\u001e\\u001f\"",
    ),
    (" !#/~\u{7f}", "\" !#/~\u{7f}\""),
    ("é€😀", "\"é€😀\""),
    ("\n\r\n\n", "\"\\n\\r\\n\\n\""),
    ("FN:Bo\r\n", "\"FN:Bo\\r\\n\""),
    ("0123456789abcde\r\n", "\"0123456789abcde\\r\\n\""),
    (
        "0123456789abcdef\r\n0123456789abcdef",
        "\"0123456789abcdef\\r\\n0123456789abcdef\"",
    ),
];

#[test]
fn strings_are_escaped(rt: HostRuntime) {
    let mut text = CompactText::over(Vec::new(rt.alloc()));
    for (string, wanted) in STRINGS {
        text.restart();
        text.string(string).expect(&rt, "memory");
        check_bytes(&rt, text.as_bytes(), wanted.as_bytes());
    }
}

/// Writes a value of each kind.
fn write_each(text: &mut CompactText) -> Result<(), AllocError> {
    text.begin_object()?;
    text.key("a")?;
    text.begin_array()?;
    text.number(0)?;
    text.string("b")?;
    text.boolean(true)?;
    text.boolean(false)?;
    text.null()?;
    text.begin_object()?;
    text.end_object()?;
    text.end_array()?;
    text.key("c")?;
    text.number(18_446_744_073_709_551_615)?;
    text.end_object()
}

#[test]
fn commas_stand_between_values(rt: HostRuntime) {
    let mut text = CompactText::over(Vec::new(rt.alloc()));
    write_each(&mut text).expect(&rt, "memory");
    check_bytes(
        &rt,
        text.as_bytes(),
        "{\"a\":[0,\"b\",true,false,null,{}],\"c\":18446744073709551615}".as_bytes(),
    );
}

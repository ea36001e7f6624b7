//! The members of a list with commas (RFC 9110, section 5.6.1).

ghost use Rattle.std.specs.Prelude.{◌≡◌, ◌≤◌, length};
ghost use Rattle.book_wire.specs.Members.{has_close, is_close, same_name};

/// Whether two names are equal but for ASCII case.
pub(crate) fn has_name(name: &[u8], wanted: &[u8]) -> bool
    ensures { result ≡ same_name name.now wanted.now }
{
    name.eq_ignore_ascii_case(wanted)
}

/// Whether the text, without the blanks round it, is `close` in any case.
fn is_close(text: &[u8]) -> bool
    ensures { result ≡ is_close text.now }
{
    has_name(text.trim_ascii(), b"close")
}

/// Whether `close` is a member of the value of a field Connection (RFC 9110, section 7.6.1).
pub(crate) fn has_close(value: &[u8]) -> bool
    ensures { result ≡ has_close value.now }
{
    let mut start = 0;
    for (i, byte) in value.iter().enumerate() {
        if *byte == b',' {
            if is_close(&value[start..i]) {
                return true;
            }
            start = i + 1;
        }
    }
    is_close(&value[start..])
}

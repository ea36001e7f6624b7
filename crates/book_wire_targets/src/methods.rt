//! Methods by their names.

ghost use Rattle.std.specs.Prelude.{◌≡◌};
ghost use Rattle.book_wire_targets.specs.Targets.{method_named};

use book_rights::Method;

/// The method of the server with this name; none where it has no such method. Names are compared with case (RFC 9110,
/// section 9.1). Takes no memory.
pub fn method_named(name: &[u8]) -> Option<Method>
    ensures { result ≡ method_named name.now }
{
    if name == b"GET".as_slice() {
        Some(Method::Get)
    } else if name == b"HEAD".as_slice() {
        Some(Method::Head)
    } else if name == b"OPTIONS".as_slice() {
        Some(Method::Options)
    } else if name == b"PUT".as_slice() {
        Some(Method::Put)
    } else if name == b"PROPFIND".as_slice() {
        Some(Method::Propfind)
    } else if name == b"PROPPATCH".as_slice() {
        Some(Method::Proppatch)
    } else if name == b"ACL".as_slice() {
        Some(Method::Acl)
    } else if name == b"COPY".as_slice() {
        Some(Method::Copy)
    } else if name == b"MOVE".as_slice() {
        Some(Method::Move)
    } else if name == b"DELETE".as_slice() {
        Some(Method::Delete)
    } else if name == b"MKCOL".as_slice() {
        Some(Method::Mkcol)
    } else if name == b"REPORT".as_slice() {
        Some(Method::Report)
    } else {
        None
    }
}

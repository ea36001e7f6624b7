//! What the definitions imply.

ghost use Rattle.book_office_audit.specs.Laws.{AuditsTellEveryResource};

/// An audit of a sound Office tells each of its resources once, at the text of its path, and nothing else.
pub fn audits_tell_every_resource()
    ensures { AuditsTellEveryResource }
{}

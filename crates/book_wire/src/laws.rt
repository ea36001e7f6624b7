//! What the definitions imply.

ghost use Rattle.book_wire_serving.specs.Serving.{StreamsAreSynced};

use book_wire_serving::Service;

/// In each stream of requests, over any service, copies that are kept by reports are what their callers may read,
/// whatever others ask in between (RFC 6578, section 3); a token ends with the epoch (own profile).
pub fn streams_are_synced<M: Service>()
    ensures { StreamsAreSynced M.serving }
{}

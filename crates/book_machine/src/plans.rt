//! What is found out about a request, and what is to be done for it.

use crate::asked::Asked;
use crate::messages::Reply;
use book_lists::Caller;
use book_office::{Edit, Node, Path};

/// The resource that a request asks for, and what is known of its destination.
#[derive(Debug, Drop)]
pub struct Target<'r> {
    /// Where it is, as the request tells it.
    pub path: &'r Path,
    /// What is mapped there, if anything is. Its number is 0: no stage asks for it.
    pub node: Option<Node>,
    /// Whether something is mapped at the destination of a COPY or MOVE.
    pub replaces: bool,
}

/// A request that has passed the stages before its verdict: caller, what is asked, and path.
#[derive(Debug, Drop)]
pub struct Ready<'r> {
    /// Who asks.
    pub caller: Caller,
    /// What is asked, by method.
    pub asked: Asked,
    /// The resource that it is asked of.
    pub target: Target<'r>,
}

/// What is to be done for a request that nothing refuses. The reply is made before the edit.
#[derive(Debug, Drop)]
pub struct Plan {
    /// The reply.
    pub reply: Reply,
    /// The edit, if the request makes one.
    pub edit: Option<Edit>,
}

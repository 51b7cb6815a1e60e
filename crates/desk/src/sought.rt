//! What a look found for pods of a request.
use quant::Request;

/// The first of the plain nodes that are worth most to pods of a request, by its place, where one
/// has room for them; and whether it was seen that all nodes are plain.
#[derive(Clone, Copy)]
pub struct Sought {
    pub request: Request,
    pub first: Option<usize>,
    pub all_plain: bool,
}

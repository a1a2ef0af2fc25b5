use s3_types::{Bytes, Request, Sequence};

/// Requests in order.
pub type RequestList = Sequence<Request>;

/// A stored store: an image, which is the base, and the changing requests after it, in order.
#[derive(Drop)]
pub struct LoggedStore {
    pub base: Bytes,
    pub changes: RequestList,
}

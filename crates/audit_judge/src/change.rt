use audit_claims::Etags;
use s3_types::Text;

/// A change of the file that readers see at a path: a file with these tags, or none.
#[derive(Drop)]
pub struct Change {
    pub path: Text,
    pub etags: Option<Etags>,
}

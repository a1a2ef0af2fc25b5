ghost use Rattle.std.specs.Prelude.{◌≡◌};
ghost use Rattle.s3_types.specs.Requests.{is_cluster, only_reads};

use crate::request::Request;

impl Request {
    /// Whether it goes to the cluster and not to the store. Takes no memory.
    pub fn is_cluster(&self) -> bool
        ensures { result ≡ is_cluster self.now }
    {
        match self {
            Request::ClusterPut { .. } => true,
            Request::ClusterRename { .. } => true,
            Request::ClusterGet { .. } => true,
            Request::ClusterDelete { .. } => true,
            Request::ClusterList { .. } => true,
            _ => false,
        }
    }

    /// Whether it only reads, whatever the store holds. Takes no memory.
    pub fn only_reads(&self) -> bool
        ensures { result ≡ only_reads self.now }
    {
        match self {
            Request::GetObject { .. } => true,
            Request::HeadObject { .. } => true,
            Request::ListPage { .. } => true,
            Request::ListParts { .. } => true,
            Request::ListUploads { .. } => true,
            Request::ClusterGet { .. } => true,
            Request::ClusterList { .. } => true,
            _ => false,
        }
    }
}

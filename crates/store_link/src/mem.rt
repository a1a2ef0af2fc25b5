ghost use Rattle.std.specs.Prelude.{◌≡◌, ℕ, ◌+◌, ◌<◌, ◌≤◌, ◌^◌, IfOk, OnOk, OnErr, Some};
ghost use Rattle.s3_types.specs.Store.{Scene, opening};
ghost use Rattle.s3_types.specs.Answer.{answer, apply};
ghost use Rattle.s3_types.specs.declared.fates.Fate.TheVariants.{Answer};
ghost use Rattle.cluster_fs.specs.Cluster.{beside};

use cluster_fs::Cluster;
use s3_service::Service;
use s3_types::{ObjectStore, Outcome, Reply, Request};
use std::alloc::{AllocError, Global};
use std::marker::Model;

/// A store with the cluster's files beside it. It answers every request.
#[derive(Drop)]
pub struct MemStore {
    service: Service,
    cluster: Cluster,
    requests: u64,
}

impl Model for MemStore {
    ghost use Rattle.std.specs.Prelude.{◌+◌, ◌≤◌, ◌^◌};
    ghost use Rattle.store_link.specs.Link.{Link, coded_link};

    ghost Value = { Link };

    ghost coded = { coded_link };

    ghost view = { λ s. record { scene = record { content = s.service; files = s.cluster }; requests = s.requests } };

    ghost invariant = { λ s. s.service.next ≤ 2 ^ 62 + s.requests };
}

/// Does a request to the store or to the cluster.
fn answered(
    service: &mut Service,
    cluster: &mut Cluster,
    request: &Request,
) -> Result<Reply, AllocError>
    requires { service.old.next < 2 ^ 63 }
    ensures reply { IfOk result (λ r. r ≡ answer (beside service.old cluster.old) request.now) }
    ensures scene { OnOk result (beside service.new cluster.new ≡ apply (beside service.old cluster.old) request.now) }
    ensures next { OnOk result (service.new.next ≤ service.old.next + 1) }
    ensures service { OnErr result (service.new ≡ service.old) }
    ensures cluster { OnErr result (cluster.new ≡ cluster.old) }
{
    if request.is_cluster() {
        cluster.apply(request)
    } else {
        service.apply(request)
    }
}

impl MemStore {
    /// A store with an empty cluster, to which no request was made yet. Takes no memory.
    pub fn new(alloc: Global, service: Service) -> MemStore
        requires { service.next ≤ 2 ^ 62 }
        ensures { result ≡ record { scene = opening service; requests = 0 } }
    {
        MemStore {
            service,
            cluster: Cluster::new(alloc),
            requests: 0,
        }
    }

    /// Does a request and counts it. If memory runs out, everything is as before.
    pub fn apply(&mut self, request: &Request) -> Result<Reply, AllocError>
        requires { self.old.requests < 2 ^ 62 }
        ensures reply { IfOk result (λ r. r ≡ answer self.old.scene request.now) }
        ensures ok { OnOk result (self.new ≡ record {
          scene = apply self.old.scene request.now;
          requests = self.old.requests + 1;
        }) }
        ensures err { OnErr result (self.new ≡ self.old) }
    {
        let reply = answered(&mut self.service, &mut self.cluster, request)?;
        self.requests += 1;
        Ok(reply)
    }

    /// Returns the store. Takes no memory.
    pub fn service(&self) -> &Service
        ensures { result.now ≡ self.now.scene.content }
    {
        &self.service
    }

    /// Gives the store back. Takes no memory.
    pub fn into_service(self) -> Service
        ensures { result ≡ self.scene.content }
    {
        self.service
    }
}

impl ObjectStore for MemStore {
    ghost scene = { λ s. s.scene };

    ghost requests = { λ s. s.requests };

    ghost losses = { λ s. 0 };

    ghost foretold = { λ s n. Some Answer };

    fn request(&mut self, request: &Request) -> Result<Outcome, AllocError> {
        Ok(Outcome::Answered(self.apply(request)?))
    }
}

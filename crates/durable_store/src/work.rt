ghost use Rattle.std.specs.Prelude.{◌≡◌, IfOk};
ghost use Rattle.durable_store.specs.Stores.{fault_text};

use exit_status::Status;
use s3_service::Service;
use s3_types::{Bytes, Journal};
use std::alloc::{AllocError, Global};

/// The answer to a command: its status, the text to write if that is not the status's own, and what
/// was sent.
#[derive(Drop)]
pub struct CommandAnswer {
    pub due: Status,
    pub text: Option<Bytes>,
    pub sent: Journal,
}

/// What a command is to do after it ran in memory.
#[derive(Drop)]
pub enum Work {
    /// To give this answer.
    Says(CommandAnswer),
    /// To save a store with the changes that were sent to it, and then to end with `Done` and a
    /// text.
    Saves {
        opening: Service,
        text: Bytes,
        sent: Journal,
    },
}

/// The line that reports what is no store: `image fault NUMBER at PLACE`. Fails only if memory runs
/// out.
#[tactic(auto, unfolding(crate::specs::Stores::fault_text))]
pub fn fault_text(alloc: Global, number: u8, place: u64) -> Result<Bytes, AllocError>
    ensures { IfOk result (λ text. text ≡ fault_text number place) }
{
    let line = format!(in alloc; "image fault {number} at {place}\n")?;
    Bytes::new(alloc, line.into_bytes())
}

ghost use Rattle.std.specs.Prelude.{◌≡◌, [], ◌∷◌, reverse, true, OnOk, OnErr};
ghost use Rattle.job_model.specs.Known.{nothing_known, with_last};

use s3_types::{Key, Sequence, Tag};
use std::alloc::{AllocError, Global};
use std::marker::Model;

/// A part that S3 acknowledged: its tag, and its size in bytes.
#[derive(Clone, Copy, PartialEq, Eq)]
pub struct DrawnPart {
    pub tag: Tag,
    pub size: u64,
}

/// An upload whose id the attempt received: its key, its id, and its acknowledged parts in the
/// order of their numbers.
#[derive(Drop)]
pub struct DrawnUpload {
    pub key: Key,
    pub upload: u64,
    pub parts: Sequence<DrawnPart>,
}

impl Model for DrawnUpload {
    ghost use Rattle.std.specs.Prelude.{map};
    ghost use Rattle.job_model.specs.Known.{Drawn};

    ghost Value = { Drawn };

    ghost view = { λ d. record {
      key = d.key;
      upload = d.upload;
      tags = map (λ p. p.tag) d.parts;
      sizes = map (λ p. p.size) d.parts;
    } };
}

/// What an attempt knows from its own requests: the uploads whose ids it received, and whether it
/// has sent the put of its temporary file and its publishing request, with or without success.
#[derive(Drop)]
pub struct Knowledge {
    drawn: Vec<DrawnUpload>,
    put_sent: bool,
    publish_sent: bool,
}

impl Model for Knowledge {
    ghost use Rattle.std.specs.Prelude.{reverse};
    ghost use Rattle.job_model.specs.Known.{Known};

    ghost Value = { Known };

    ghost view = { λ k. record {
      drawn = reverse k.drawn.items;
      put_sent = k.put_sent;
      publish_sent = k.publish_sent;
    } };
}

impl Knowledge {
    /// The knowledge of an attempt that has sent nothing. Takes no memory.
    pub fn new(alloc: Global) -> Knowledge
        ensures { result ≡ nothing_known }
    {
        Knowledge {
            drawn: Vec::new(alloc),
            put_sent: false,
            publish_sent: false,
        }
    }

    /// The uploads in the order in which they were created. Takes no memory.
    pub fn as_made(&self) -> &[DrawnUpload]
        ensures { reverse result.now ≡ self.now.drawn }
    {
        self.drawn.as_slice()
    }

    /// True if the put of the temporary file was sent.
    pub fn put_sent(&self) -> bool
        ensures { result ≡ self.now.put_sent }
    {
        self.put_sent
    }

    /// True if the publishing request was sent.
    pub fn publish_sent(&self) -> bool
        ensures { result ≡ self.now.publish_sent }
    {
        self.publish_sent
    }

    /// Records a new upload, with no parts yet. If memory runs out, nothing changes.
    pub fn draw(&mut self, alloc: Global, key: Key, upload: u64) -> Result<(), AllocError>
        ensures ok { OnOk result (self.new ≡ record {
          drawn = record {
            key = key;
            upload = upload;
            tags = [];
            sizes = [];
          } ∷ self.old.drawn;
          put_sent = self.old.put_sent;
          publish_sent = self.old.publish_sent;
        }) }
        ensures err { OnErr result (self.new ≡ self.old) }
    {
        self.drawn.push(DrawnUpload {
            key,
            upload,
            parts: Sequence::new(alloc),
        })?;
        Ok(())
    }

    /// Records an acknowledged part of the newest upload. If there is no upload, nothing changes.
    /// If
    /// memory runs out, nothing changes.
    pub fn draw_part(&mut self, tag: Tag, size: u64) -> Result<(), AllocError>
        ensures ok { OnOk result (self.new ≡ record {
          drawn = with_last tag size self.old.drawn;
          put_sent = self.old.put_sent;
          publish_sent = self.old.publish_sent;
        }) }
        ensures err { OnErr result (self.new ≡ self.old) }
    {
        match self.drawn.last_mut() {
            Some(drawn) => drawn.parts.push(DrawnPart { tag, size }),
            None => Ok(()),
        }
    }

    /// Records that the put of the temporary file was sent. Takes no memory.
    pub fn tell_put_sent(&mut self)
        ensures { self.new ≡ record { drawn = self.old.drawn; put_sent = true; publish_sent = self.old.publish_sent } }
    {
        self.put_sent = true;
    }

    /// Records that the publishing request was sent. Takes no memory.
    pub fn tell_publish_sent(&mut self)
        ensures { self.new ≡ record { drawn = self.old.drawn; put_sent = self.old.put_sent; publish_sent = true } }
    {
        self.publish_sent = true;
    }
}

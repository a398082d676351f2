ghost use Rattle.std.specs.Prelude.{◌≡◌, ◌<◌, ◌≤◌, ◌^◌, length, IfOk};
ghost use Rattle.scfs_base.specs.Limits.{contents_limit};
ghost use Rattle.scfs_upload.specs.Queue.{begun};

use crate::Closed;
use scfs_base::{Bytes, Digest, Memory, Sequence, UploadNo};
use scfs_digest::draw_seed;
use scfs_stream::draw;
use scfs_unit::seal;
use std::alloc::Global;

/// What begins an upload: its number, the root of its unit, the digest of its contents, and the objects of the clouds.
#[derive(Debug, Drop)]
pub struct Begun {
    pub upload: UploadNo,
    pub root: Digest,
    pub content: Digest,
    pub objects: Sequence<Bytes>,
}

/// Seals the contents of a closed session for 3f+1 clouds under what is drawn for this upload from its agent's secret seed.
pub(crate) fn begin(
    alloc: Global,
    f: u8,
    seed: &[u8; 32],
    upload: UploadNo,
    closed: &Closed,
) -> Result<Begun, Memory>
    requires low { 1 ≤ f }
    requires high { f ≤ 3 }
    requires incarnation { upload.incarnation < 2 ^ 24 }
    requires short { length closed.now.contents ≤ contents_limit }
    ensures { IfOk result (λ it. it ≡ begun f seed.now upload closed.now) }
{
    let drawn = draw(&draw_seed(seed, &upload), f);
    let unit = seal(alloc, f, &drawn, closed.contents.as_slice())?;
    Ok(Begun {
        upload,
        root: unit.root,
        content: unit.content,
        objects: unit.objects,
    })
}

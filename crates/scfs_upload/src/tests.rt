ghost use Rattle.std.specs.Prelude.{◌≡◌, None, length, IfOk};

use crate::{Closed, UploadQueue};
use scfs_base::{Bytes, FileId, Memory, UploadNo};
use scfs_quorum_write::Progress;
use std::alloc::Global;
use std::test::Fail;

/// The upload of this count.
fn upload(count: u32) -> UploadNo
    ensures { result.incarnation ≡ 1 }
{
    UploadNo {
        agent: 0,
        incarnation: 1,
        count,
    }
}

/// A queue of the closed sessions 1 and 2, with the contents `a` and `b`.
fn two_closed(alloc: Global) -> Result<UploadQueue, Memory>
    ensures free { IfOk result (λ queue. queue.uploading ≡ None) }
    ensures two { IfOk result (λ queue. length queue.closed ≡ 2) }
{
    let mut queue = UploadQueue::new(alloc)?;
    queue.push(Closed {
        session: 1,
        id: FileId(7),
        base: 3,
        contents: Bytes::from_slice(alloc, b"a")?,
    })?;
    queue.push(Closed {
        session: 2,
        id: FileId(8),
        base: 0,
        contents: Bytes::from_slice(alloc, b"b")?,
    })?;
    Ok(queue)
}

#[test]
fn the_third_different_cloud_is_the_last(rt: HostRuntime) -> Result<(), Fail> {
    let mut queue = two_closed(rt.alloc())?;
    let begun = queue
        .begin(1, &[7; 32], upload(1))?
        .ok_or("nothing begins")?;
    assert_eq!(rt; begun.upload, upload(1));
    assert_eq!(rt; begun.objects.len(), 4);
    assert!(rt; queue.missing(2));
    assert_eq!(rt; queue.acked(2), Progress::Counted(1));
    assert!(rt; !queue.missing(2));
    assert_eq!(rt; queue.acked(2), Progress::Already);
    assert_eq!(rt; queue.acked(0), Progress::Counted(2));
    assert_eq!(rt; queue.turn(), 1);
    assert_eq!(rt; queue.turn(), 2);
    assert_eq!(rt; queue.acked(3), Progress::Done);
    assert_eq!(rt; queue.acked(1), Progress::Counted(4));
    Ok(())
}

#[test]
fn sessions_go_in_the_order_of_their_closes(rt: HostRuntime) -> Result<(), Fail> {
    let mut queue = two_closed(rt.alloc())?;
    assert_eq!(rt; queue.waiting(), 2);
    assert!(rt; queue.current().is_none());
    assert!(rt; !queue.missing(0));
    assert!(rt; queue.begin(1, &[7; 32], upload(1))?.is_some());
    assert!(rt; queue.begin(1, &[7; 32], upload(2))?.is_none());
    assert_eq!(rt; queue.current().ok_or("none is in progress")?.session, 1);
    assert_eq!(rt; queue.own(1).ok_or("it is not own")?.base, 3);
    let first = queue.ended()?;
    assert_eq!(rt;
        (first.session, first.contents.as_slice()),
        (1, b"a".as_slice())
    );
    assert!(rt; queue.own(1).is_none());
    assert_eq!(rt; queue.waiting(), 1);
    assert!(rt; queue.current().is_none());
    assert!(rt; queue.begin(1, &[7; 32], upload(2))?.is_some());
    assert_eq!(rt; queue.ended()?.session, 2);
    assert!(rt; queue.begin(1, &[7; 32], upload(3))?.is_none());
    Ok(())
}

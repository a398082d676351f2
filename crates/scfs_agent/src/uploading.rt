ghost use Rattle.std.specs.Prelude.{◌≡◌, ◌<◌, ◌+◌, ◌*◌, ◌≤◌, ◌^◌, [], length, filter, not, ◌&&◌, Some, None, IfOk, OnOk};
ghost use Rattle.std.specs.List.{All};
ghost use Rattle.scfs_base.specs.Limits.{contents_limit};
ghost use Rattle.scfs_quorum_write.specs.Acks.{count_of};
ghost use Rattle.scfs_model.specs.Asked as machine;
ghost use Rattle.scfs_model.specs.Lists.{below, is_in};
ghost use Rattle.scfs_model.specs.Names.{upload_no};
ghost use Rattle.scfs_model.specs.Format.{sealed};
ghost use Rattle.scfs_model.specs.Layers.{rows};
ghost use Rattle.scfs_model.specs.Storing.{is_ack};
ghost use Rattle.scfs_model.specs.Agents.{For_close};
ghost use Rattle.scfs_model.specs.Closes.{begins, goes_on, asks_puts, stores, upload_hears, upload_turns, falls_short};
ghost use Rattle.scfs_anchor.specs.Holding as holding;
ghost use Rattle.scfs_agent.specs.State.{setup};
ghost use Rattle.scfs_agent.specs.Views.{asked_of, acked_of, row_of, left_session, upload_of, closed_of, acked_next};
ghost use Rattle.scfs_agent.specs.Outputs.{outputs_of};
ghost use Rattle.scfs_agent.specs.Asking.{MayClose};
ghost use Rattle.scfs_agent.specs.Keeping.{FitsOutput, IsFree, IsUpload, MayDraw};

use crate::outputs::{append, is_answer_to, numbered, put_outputs};
use crate::work::{Asked, Asking, Upload, Work};
use crate::{Agent, Output};
use scfs_anchor::VersionRow;
use scfs_base::{CloudAnswer, Digest, Memory, RequestNo, Sequence, UploadNo};
use scfs_digest::draw_seed;
use scfs_quorum_write::{Progress, PutTracker};
use scfs_schedule::{Line, Refusal};
use scfs_session::Ended;
use scfs_stream::draw;
use scfs_unit::{Sealed, seal};
use std::alloc::Global;

/// The turns after which an upload is given up.
const TURNS: u32 = 8;

/// The numbers of all clouds.
#[tactic(auto, using(crate::proofs::CloudLists::below_more))]
fn all_clouds(alloc: Global, f: u8) -> Result<Sequence<u8>, Memory>
    requires { f ≤ 3 }
    ensures { IfOk result (λ clouds. clouds ≡ below (3 * f + 1)) }
{
    let mut clouds = Sequence::new(alloc);
    for cloud in 0..3 * f + 1 {
        clouds.push(cloud)?;
    }
    Ok(clouds)
}

/// Whether an answer of a cloud acknowledges one of these Puts.
fn acknowledges(puts: &[Asked], cloud: u8, request: RequestNo, answer: &CloudAnswer) -> bool
    ensures { result ≡ is_ack answer.now && machine.is_answer_to (asked_of puts.now) cloud request }
{
    match answer {
        CloudAnswer::Ack => is_answer_to(puts, cloud, request),
        CloudAnswer::Absent | CloudAnswer::Fail | CloudAnswer::Bytes(_) | CloudAnswer::Names(_) =>
            false,
    }
}

/// A digest, of 32 bytes.
fn whole(digest: &Digest) -> Digest
    ensures same { result ≡ digest.now }
    ensures length { length result.0 ≡ 32 }
{
    let bytes = digest.0;
    let _count = bytes.len();
    Digest(bytes)
}

impl Agent {
    /// The upload of a closed session begins: its number is drawn, it is sealed, and its Puts are asked of all clouds.
    pub(crate) fn begin(&mut self, session: u64, left: Ended) -> Result<Sequence<Output>, Memory>
        requires free { IsFree self.old }
        requires room { MayDraw self.old }
        requires count { self.old.agent.uploads + 1 ≤ self.old.inputs }
        requires short { length left.contents ≤ contents_limit }
        requires base { left.base ≤ 1000000 }
        ensures gives { IfOk result (λ given. given ≡ outputs_of self.old
            (begins (setup self.old) rows self.old.no (record self.old.agent { waiting = Some For_close })
            (record { number = session; session = left_session left; upload = None }))) }
        ensures after { OnOk result (self.new ≡ record self.old {
          agent = (begins (setup self.old) rows self.old.no (record self.old.agent { waiting = Some For_close })
              (record { number = session; session = left_session left; upload = None })).agent;
        }) }
        ensures asks { IfOk result (λ given. All (FitsOutput self.old.header.f) given) }
    {
        let count = self.uploads + 1;
        let unit = self.sealed(count, &left)?;
        let row = self.row_from(count, &left, &unit);
        let upload = Upload {
            session,
            left,
            row,
            unit,
            puts: Sequence::new(self.alloc),
            acks: PutTracker::new(self.alloc, self.header.f, 1)?,
            turns: 0,
        };
        self.uploads = count;
        let clouds = all_clouds(self.alloc, self.header.f)?;
        self.ask_puts(upload, clouds.as_slice())
    }

    /// What a closed session leaves, sealed under what is drawn for this upload.
    fn sealed(&self, count: u32, left: &Ended) -> Result<Sealed, Memory>
        requires { length left.now.contents ≤ contents_limit }
        ensures { IfOk result (λ unit. unit ≡ sealed (setup self.now) (upload_no self.now.no self.now.agent.incarnation count) left.now.contents) }
    {
        let (_mode, seed) = self.header.agents.as_slice()[usize::from(self.no)];
        let seed = draw_seed(&seed, &self.upload_no(count));
        let drawn = draw(&seed, self.header.f);
        seal(self.alloc, self.header.f, &drawn, left.contents.as_slice())
    }

    /// The number of the upload of this count.
    fn upload_no(&self, count: u32) -> UploadNo
        ensures number { result ≡ upload_no self.now.no self.now.agent.incarnation count }
        ensures fits { holding.IsUpload result }
    {
        UploadNo {
            agent: self.no,
            incarnation: self.incarnation,
            count,
        }
    }

    /// The row of the version that a closed session will be.
    fn row_from(&self, count: u32, left: &Ended, unit: &Sealed) -> VersionRow
        requires short { length left.now.contents ≤ contents_limit }
        requires base { left.now.base ≤ 1000000 }
        ensures row { row_of result ≡ rows.closed (left_session left.now) (upload_no self.now.no self.now.agent.incarnation count) unit.now }
        ensures closes { MayClose self.now.no self.now.agent.incarnation (row_of result) }
    {
        let (root, content) = (whole(&unit.root), whole(&unit.content));
        let upload = self.upload_no(count);
        VersionRow {
            id: left.id,
            number: left.base + 1,
            root,
            content,
            length: left.contents.len() as u32,
            upload,
            time: 0,
        }
    }

    /// Asks Puts of these clouds.
    fn ask_puts(&mut self, mut upload: Upload, clouds: &[u8]) -> Result<Sequence<Output>, Memory>
        requires free { IsFree self.old }
        requires room { MayDraw self.old }
        requires upload { IsUpload self.old.no self.old.agent.incarnation self.old.header.f self.old.inputs upload }
        requires few { length clouds.now ≤ 10 }
        requires clouds { All (λ c. c < 3 * self.old.header.f + 1) clouds.now }
        ensures gives { IfOk result (λ given. given ≡ outputs_of self.old
            (asks_puts (setup self.old) self.old.no
            (record self.old.agent { waiting = Some For_close }) (closed_of upload) (upload_of upload) clouds.now)) }
        ensures after { OnOk result (self.new ≡ record self.old {
          agent = (asks_puts (setup self.old) self.old.no
              (record self.old.agent { waiting = Some For_close }) (closed_of upload) (upload_of upload) clouds.now).agent;
        }) }
        ensures asks { IfOk result (λ given. All (FitsOutput self.old.header.f) given) }
    {
        let puts = numbered(self.alloc, self.no, self.incarnation, self.requests, clouds)?;
        let given = put_outputs(self.alloc, upload.row.upload, &upload.unit, puts.as_slice())?;
        append(&mut upload.puts, puts.as_slice())?;
        self.requests += puts.len() as u64;
        self.goes_on(upload);
        Ok(given)
    }

    /// A cloud's answer to an upload.
    pub(crate) fn heard_upload(
        &mut self,
        mut upload: Upload,
        cloud: u8,
        request: RequestNo,
        answer: &CloudAnswer,
    ) -> Result<Sequence<Output>, Memory>
        requires free { IsFree self.old }
        requires room { MayDraw self.old }
        requires upload { IsUpload self.old.no self.old.agent.incarnation self.old.header.f self.old.inputs upload }
        requires cloud { cloud < 3 * self.old.header.f + 1 }
        ensures gives { IfOk result (λ given. given ≡ outputs_of self.old
            (upload_hears (setup self.old) self.old.no
            (record self.old.agent { waiting = Some For_close }) (closed_of upload) (upload_of upload) cloud request answer.now)) }
        ensures after { OnOk result (self.new ≡ record self.old {
          agent = (upload_hears (setup self.old) self.old.no
              (record self.old.agent { waiting = Some For_close }) (closed_of upload) (upload_of upload) cloud request answer.now).agent;
        }) }
        ensures asks { IfOk result (λ given. All (FitsOutput self.old.header.f) given) }
    {
        if !acknowledges(upload.puts.as_slice(), cloud, request, answer) {
            self.goes_on(upload);
            return Ok(Sequence::new(self.alloc));
        }
        let progress = upload.acks.acked(cloud, 0);
        self.stores(upload, progress)
    }

    /// What an acknowledgement leads to.
    fn stores(&mut self, upload: Upload, progress: Progress) -> Result<Sequence<Output>, Memory>
        requires free { IsFree self.old }
        requires room { MayDraw self.old }
        requires upload { IsUpload self.old.no self.old.agent.incarnation self.old.header.f self.old.inputs upload }
        ensures gives { IfOk result (λ given. given ≡ outputs_of self.old
            (stores (setup self.old) self.old.no
            (record self.old.agent { waiting = Some For_close }) (closed_of upload) (upload_of upload) (acked_next progress))) }
        ensures after { OnOk result (self.new ≡ record self.old {
          agent = (stores (setup self.old) self.old.no
              (record self.old.agent { waiting = Some For_close }) (closed_of upload) (upload_of upload) (acked_next progress)).agent;
        }) }
        ensures asks { IfOk result (λ given. All (FitsOutput self.old.header.f) given) }
    {
        let asking = Asking::Commit(upload.session, upload.row);
        self.goes_on(upload);
        match progress {
            Progress::Done => self.ask(asking),
            Progress::Already | Progress::Counted(_) => Ok(Sequence::new(self.alloc)),
        }
    }

    /// It goes on with its upload.
    fn goes_on(&mut self, upload: Upload)
        requires free { IsFree self.old }
        requires upload { IsUpload self.old.no self.old.agent.incarnation self.old.header.f self.old.inputs upload }
        ensures { self.new ≡ record self.old {
          agent = goes_on (record self.old.agent { waiting = Some For_close }) (closed_of upload) (upload_of upload);
        } }
    {
        self.work = Work::Upload(upload);
    }

    /// A turn of an upload: nothing once enough clouds acknowledged; else the eighth is short, and one before it asks again.
    pub(crate) fn turned_upload(&mut self, mut upload: Upload) -> Result<Sequence<Output>, Memory>
        requires free { IsFree self.old }
        requires room { MayDraw self.old }
        requires upload { IsUpload self.old.no self.old.agent.incarnation self.old.header.f self.old.inputs upload }
        requires turns { upload.turns + 1 ≤ self.old.inputs }
        ensures gives { IfOk result (λ given. given ≡ outputs_of self.old
            (upload_turns (setup self.old) self.old.no (record self.old.agent { waiting = Some For_close }) (closed_of upload) (upload_of upload))) }
        ensures after { OnOk result (self.new ≡ record self.old {
          agent = (upload_turns (setup self.old) self.old.no
              (record self.old.agent { waiting = Some For_close }) (closed_of upload) (upload_of upload)).agent;
        }) }
        ensures asks { IfOk result (λ given. All (FitsOutput self.old.header.f) given) }
    {
        let most = 2 * self.header.f;
        upload.turns += 1;
        let acked = upload.acks.count();
        if acked > most {
            self.goes_on(upload);
            return Ok(Sequence::new(self.alloc));
        }
        if upload.turns == TURNS {
            return self.fall_short(&upload, acked);
        }
        let clouds = self.missing(&upload.acks)?;
        self.ask_puts(upload, clouds.as_slice())
    }

    /// The clouds that did not acknowledge an upload.
    fn missing(&self, acks: &PutTracker) -> Result<Sequence<u8>, Memory>
        requires f { acks.now.f ≡ self.now.header.f }
        requires part { length acks.now.parts ≡ 1 }
        ensures clouds { IfOk result (λ clouds. clouds ≡ filter (λ c. not (is_in c (acked_of acks.now))) (below (3 * self.now.header.f + 1))) }
        ensures few { IfOk result (λ clouds. length clouds ≤ 10) }
        ensures within { IfOk result (λ clouds. All (λ c. c < 3 * self.now.header.f + 1) clouds) }
    {
        let mut clouds = Sequence::new(self.alloc);
        for cloud in 0..3 * self.header.f + 1 {
            if acks.missing(cloud, 0) {
                clouds.push(cloud)?;
            }
        }
        Ok(clouds)
    }

    /// An upload is given up: its refusal, and the unlock.
    fn fall_short(&mut self, upload: &Upload, acked: u8) -> Result<Sequence<Output>, Memory>
        requires free { IsFree self.old }
        requires room { MayDraw self.old }
        ensures gives { IfOk result (λ given. given ≡ outputs_of self.old
            (falls_short (setup self.old) self.old.no (record self.old.agent { waiting = Some For_close }) (closed_of upload.now) acked)) }
        ensures after { OnOk result (self.new ≡ record self.old {
          agent = (falls_short (setup self.old) self.old.no (record self.old.agent { waiting = Some For_close }) (closed_of upload.now) acked).agent;
        }) }
        ensures asks { IfOk result (λ given. All (FitsOutput self.old.header.f) given) }
    {
        self.give_up(upload.session);
        let mut given = self.ask(Asking::Unlock(upload.left.id, upload.session))?;
        given.push(Output::Line(Line::No(self.no, Refusal::Short(acked))))?;
        Ok(given)
    }
}

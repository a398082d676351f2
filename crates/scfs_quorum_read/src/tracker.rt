ghost use Rattle.std.specs.Prelude.{◌≡◌, ◌≢◌, ◌+◌, ◌*◌, ◌<◌, ◌≤◌, List, [], ◌∷◌, ◌++◌, length, false, not, MatchOption, IfOk, IfSome, OnErr, OnOk, None};
ghost use Rattle.std.specs.Option.{option_to_list};
ghost use Rattle.scfs_unit.specs.Checking.{kept, IsPiece};
ghost use Rattle.scfs_quorum_read.specs.Reading.{Reading, good_piece, is_among, first_unasked, asking};
ghost use Rattle.scfs_quorum_read.specs.Tracking.{IsOrder, LeavesOpen, kept_step, begun, heard, turn_comes_to, turn_taken};

use crate::steps::{ReadStep, TurnStep};
use scfs_base::{CloudAnswer, Digest, Memory};
use scfs_unit::{GoodPiece, KeptPiece, check_object, keep_piece, open_unit};
use std::alloc::Global;
use std::marker::Model;

/// How far the reading of a unit has come, seen as what is read, which clouds were asked, the first good piece of each
/// cloud, and how many turns are left.
#[derive(Drop)]
pub struct ReadTracker {
    alloc: Global,
    f: u8,
    root: Digest,
    length: u32,
    order: Vec<u8>,
    asked: usize,
    pieces: Vec<KeptPiece>,
    turns: Option<u8>,
    left: Option<u8>,
}

impl Model for ReadTracker {
    ghost use Rattle.std.specs.Prelude.{take};
    ghost use Rattle.scfs_quorum_read.specs.Tracking.{Tracker, IsTracker};

    ghost Value = { Tracker };

    ghost view = { λ t. record {
      reading = record { f = t.f; root = t.root; size = t.length; order = t.order.items; turns = t.turns };
      asked = take t.asked t.order.items;
      pieces = t.pieces.items;
      left = t.left;
    } };

    ghost invariant = { λ t. IsTracker t.f t.length t.order.items t.asked t.pieces.items };
}

impl ReadTracker {
    /// Nothing was answered yet, and the first f+1 clouds of the order are asked. The order has each of the n = 3f+1
    /// clouds once, f from 1 to 3; the contents have `length` bytes, at most 1,048,576; the reading ends at the turn
    /// `turns`, which is at least 1, if it is given.
    pub fn new(
        alloc: Global,
        f: u8,
        root: Digest,
        length: u32,
        order: &[u8],
        turns: Option<u8>,
    ) -> Result<ReadTracker, Memory>
        requires low { 1 ≤ f }
        requires high { f ≤ 3 }
        requires size { length ≤ 1048576 }
        requires order { IsOrder f order.now }
        requires turns { turns ≢ Some 0 }
        ensures reading { IfOk result (λ tracker. tracker.reading
            ≡ record { f = f; root = root; size = length; order = order.now; turns = turns }) }
        ensures begins { IfOk result (λ tracker. tracker ≡ begun (record { f = f; root = root; size = length; order = order.now; turns = turns })) }
    {
        Ok(ReadTracker {
            alloc,
            f,
            root,
            length,
            order: Vec::from_slice(alloc, order)?,
            asked: usize::from(f) + 1,
            pieces: Vec::new(alloc),
            turns,
            left: turns,
        })
    }

    /// What the answer of a cloud brings; no answer comes after the contents were given. It takes memory only for the
    /// first good answer of a cloud.
    pub fn answer(&mut self, cloud: u8, answer: &CloudAnswer) -> Result<ReadStep, Memory>
        requires cloud { cloud < 3 * self.old.reading.f + 1 }
        requires open { length self.old.pieces ≤ self.old.reading.f }
        ensures reading { IfOk result (λ step. self.new.reading ≡ self.old.reading) }
        ensures open { IfOk result (λ step. LeavesOpen step self.new) }
        ensures steps { IfOk result (λ step. step ≡ (heard self.old cloud answer.now).step) }
        ensures after { IfOk result (λ step. self.new ≡ (heard self.old cloud answer.now).after) }
        ensures memory { OnErr result (good_piece self.old.reading cloud answer.now ≢ None) }
    {
        if !self.wants(cloud) {
            return Ok(ReadStep::Wait);
        }
        match self.good_piece(cloud, answer) {
            Some(piece) => {
                self.keep(&piece)?;
                Ok(self.contents_if_whole()?)
            }
            None => Ok(self.ask_next()),
        }
    }

    /// The piece in a good answer of the cloud: bytes that are accepted for it under the root, with the length.
    fn good_piece<'a>(&self, cloud: u8, answer: &'a CloudAnswer) -> Option<GoodPiece<'a>>
        requires { cloud < 3 * self.now.reading.f + 1 }
        ensures good { MatchOption result
            (good_piece self.now.reading cloud answer.now ≡ None)
            (λ piece. good_piece self.now.reading cloud answer.now
            ≡ Some (kept piece.cloud piece.length piece.share piece.block.now)) }
        ensures form { IfSome result (λ piece.
            IsPiece self.now.reading.f (kept piece.cloud piece.length piece.share piece.block.now)) }
        ensures cloud { IfSome result (λ piece. piece.cloud ≡ cloud) }
        ensures length { IfSome result (λ piece. piece.length ≡ self.now.reading.size) }
    {
        let CloudAnswer::Bytes(bytes) = answer else {
            return None;
        };
        match check_object(self.f, cloud, &self.root, bytes.as_slice()) {
            Ok(piece) if piece.length == self.length => Some(piece),
            _ => None,
        }
    }

    /// Keeps the first good piece of a cloud.
    fn keep(&mut self, piece: &GoodPiece<'_>) -> Result<(), Memory>
        requires open { length self.old.pieces ≤ self.old.reading.f }
        requires first { is_among piece.now.cloud self.old.pieces ≡ false }
        requires form { IsPiece self.old.reading.f
            (kept piece.now.cloud piece.now.length piece.now.share piece.now.block.now) }
        requires length { piece.now.length ≡ self.old.reading.size }
        ensures { OnOk result (self.new ≡ record self.old {
          pieces = self.old.pieces
              ++ kept piece.now.cloud piece.now.length piece.now.share piece.now.block.now ∷ [];
        }) }
    {
        let piece = keep_piece(self.alloc, piece)?;
        self.pieces.push(piece)?;
        Ok(())
    }

    /// The contents, if there are f+1 good pieces.
    fn contents_if_whole(&self) -> Result<ReadStep, Memory>
        ensures { IfOk result (λ step. step ≡ kept_step self.now.reading.f self.now.pieces) }
    {
        if self.pieces.len() <= usize::from(self.f) {
            return Ok(ReadStep::Wait);
        }
        let contents = open_unit(self.alloc, self.f, &self.pieces)?;
        Ok(ReadStep::Whole(contents))
    }

    /// Asks the next cloud of the order, if there is one.
    fn ask_next(&mut self) -> ReadStep
        ensures step { result ≡ asking (first_unasked self.old.reading.order self.old.asked) }
        ensures after { self.new ≡ record self.old {
          asked = self.old.asked
              ++ option_to_list (first_unasked self.old.reading.order self.old.asked);
        } }
    {
        if self.asked == self.order.len() {
            return ReadStep::Wait;
        }
        let cloud = self.order[self.asked];
        self.asked += 1;
        ReadStep::Ask(cloud)
    }

    /// A turn came: every cloud without a good answer is asked again, or the reading ends. No turn comes after that.
    pub fn turn(&mut self) -> TurnStep
        requires { self.old.left ≢ Some 0 }
        ensures reading { self.new.reading ≡ self.old.reading }
        ensures open { result ≡ TurnStep.Again → self.new.left ≢ Some 0 }
        ensures steps { result ≡ turn_comes_to self.old }
        ensures after { self.new ≡ turn_taken self.old }
    {
        self.asked = self.order.len();
        let Some(left) = self.left else {
            return TurnStep::Again;
        };
        self.left = Some(left - 1);
        if left > 1 {
            TurnStep::Again
        } else {
            TurnStep::Spent(self.good())
        }
    }

    /// Whether the cloud has given no good answer yet.
    pub fn wants(&self, cloud: u8) -> bool
        ensures { result ≡ not (is_among cloud self.now.pieces) }
    {
        !is_among(cloud, &self.pieces)
    }

    /// The order in which the clouds are asked.
    pub fn order(&self) -> &[u8]
        ensures { result.now ≡ self.now.reading.order }
    {
        self.order.as_slice()
    }

    /// How many different clouds have given a good answer.
    pub fn good(&self) -> u8
        ensures { result ≡ length self.now.pieces }
    {
        self.pieces.len() as u8
    }
}

/// Whether one of the pieces is this cloud's.
fn is_among(cloud: u8, pieces: &[KeptPiece]) -> bool
    ensures { result ≡ is_among cloud pieces.now }
{
    pieces.iter().any(|piece| piece.cloud == cloud)
}

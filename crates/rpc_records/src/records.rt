//! The reader of records.

ghost use Rattle.std.specs.Prelude.{◌≡◌, ℕ, ◌+◌, ◌-◌, ◌<◌, ◌≤◌, ◌↔◌, [], ◌++◌, List, length, take, vec_capacity, min, Ok, Err};
ghost use Rattle.std.specs.Prelude.{IfOk, IfSome, IsNone, IsTrue};
ghost use Rattle.rpc_records.specs.Reading.Reading.{Partial};
ghost use Rattle.rpc_records.specs.Progress.{IsUnfinished, fresh, reading_of, refusal_of, taken_of, is_at_edge, kept_by};
ghost use Rattle.rpc_records.specs.Progress.{after_next, KeepsWhole, TakesAll, Refuses, GoesOn};
ghost use Rattle.rpc_records.specs.Progress.Progress.{Holding, Refusing};
ghost use Rattle.rpc_records.specs.declared.fault.RecordFault.{RecordFault};
ghost use Rattle.rpc_records.specs.Stream.{HasRead, taken_part};

use crate::fault::RecordFault;
use crate::limits::{MOST_BYTES, MOST_FRAGMENTS};
use crate::stage::{Stage, behind_head, in_fragment};
use byteorder::{BigEndian, ByteOrder};
use nfs3_types::NoMemory;
use std::alloc::Global;
use std::marker::Model;

/// A reader of the records of a text that comes in pieces. It keeps one whole record at a time. A
/// contract sees how far it is, as a `Progress`.
#[derive(Debug, Drop)]
pub struct Records {
    /// The content of the present record. The room for a whole one is reserved.
    content: Vec<u8>,
    /// How many more fragments of the present record may begin.
    fragments: usize,
    /// The present head.
    head: [u8; 4],
    stage: Stage,
}

impl Model for Records {
    ghost use Rattle.std.specs.Prelude.{◌≡◌, ◌≤◌, vec_capacity, length};
    ghost use Rattle.rpc_records.specs.declared.limits.TheConstants.{MOST_BYTES, MOST_FRAGMENTS};
    ghost use Rattle.rpc_records.specs.Progress.{Progress};
    ghost use Rattle.rpc_records.specs.Stage.{progress_at, IsStage};

    ghost Value = { Progress };

    ghost view = { λ records. progress_at records.stage records.fragments records.content.items records.head };

    ghost invariant = { λ records. (MOST_BYTES ≤ vec_capacity records.content) × (records.fragments ≤ MOST_FRAGMENTS)
        × IsStage records.stage records.fragments (length records.content.items) × (length records.head ≡ 4) };
}

/// Puts the front of the piece behind the first bytes of the head, as much as fits, and tells how many
/// bytes.
fn fill_head(head: &mut [u8; 4], taken: usize, piece: &[u8]) -> usize
    requires { taken < 4 }
    ensures count { result ≡ min (4 - taken) (length piece.now) }
    ensures head { take (taken + result) head.new ≡ take taken head.old ++ take result piece.now }
{
    let n = (4 - taken).min(piece.len());
    head[taken..taken + n].copy_from_slice(&piece[..n]);
    n
}

impl Records {
    /// A reader at the beginning of a text. It reserves the room for a whole record, and no later
    /// call takes memory.
    pub fn new(alloc: Global) -> Result<Records, NoMemory>
        ensures fresh { IfOk result (λ records. records ≡ fresh) }
        ensures stream { IfOk result (λ records. HasRead [] [] records) }
    {
        Ok(Records {
            content: Vec::with_capacity(alloc, MOST_BYTES)?,
            fragments: MOST_FRAGMENTS,
            head: [0; 4],
            stage: Stage::Head(0),
        })
    }

    /// Takes bytes of the piece, to the end of the present record or of the piece, and tells how many.
    /// While a whole record is kept it takes none, and after a refusal it gives that refusal for good.
    pub fn feed(&mut self, piece: &[u8]) -> Result<usize, RecordFault>
        ensures whole { KeepsWhole self.old piece.now result self.new }
        ensures partial { TakesAll self.old piece.now result self.new }
        ensures refused { Refuses self.old piece.now result self.new }
        ensures goes_on { GoesOn self.old piece.now result self.new }
        ensures within { IfOk result (λ n. n ≤ length piece.now) }

        // While a whole record is kept nothing is taken, and a refusal stays.
        ensures kept { (content : List ℕ) → self.old ≡ Holding content → (result ≡ Ok 0) × (self.new ≡ self.old) }
        ensures for_good { (fault : RecordFault) → self.old ≡ Refusing fault → (result ≡ Err fault) × (self.new ≡ self.old) }

        // So what was read of a stream grows by what was taken.
        ensures stream { (text : List ℕ) (dropped : List (List ℕ)) → HasRead text dropped self.old
            → HasRead (text ++ taken_part result piece.now) dropped self.new }
    {
        let mut taken = 0;
        while taken < piece.len() && self.is_unfinished() {
            taken += self.step(&piece[taken..]);
        }
        match self.refusal() {
            Some(fault) => Err(fault),
            None => Ok(taken),
        }
    }

    /// Takes what the piece has of the present head or fragment, and tells how many bytes.
    fn step(&mut self, piece: &[u8]) -> usize
        requires piece { 0 < length piece.now }
        requires unfinished { IsUnfinished self.old }
        ensures within { result ≤ length piece.now }
        ensures some { 0 < result }
        ensures reading { (more : List ℕ) → reading_of self.new more ≡ reading_of self.old (take result piece.now ++ more) }
        ensures taken { IsUnfinished self.new → taken_of self.new ≡ taken_of self.old + result }
    {
        match self.stage {
            Stage::Head(taken) => {
                let n = fill_head(&mut self.head, taken, piece);
                if taken + n < 4 {
                    self.stage = Stage::Head(taken + n);
                } else {
                    let head = BigEndian::read_u32(&self.head);
                    self.stage = behind_head(head, self.content.len(), self.fragments);
                    self.fragments = self.fragments.saturating_sub(1);
                }
                n
            }
            Stage::Fragment(last, left) => {
                let n = left.min(piece.len());
                let _ = self.content.extend_from_slice(&piece[..n]);
                self.stage = in_fragment(last, left - n);
                n
            }
            Stage::Whole | Stage::Refused(_) => 0,
        }
    }

    /// Whether the present record is neither whole nor refused.
    fn is_unfinished(&self) -> bool
        ensures { IsTrue result ↔ IsUnfinished self.now }
    {
        matches!(self.stage, Stage::Head(_) | Stage::Fragment(_, _))
    }

    /// The refusal, if there is one.
    fn refusal(&self) -> Option<RecordFault>
        ensures refusal { result ≡ refusal_of self.now }
        ensures partial { IsUnfinished self.now → reading_of self.now [] ≡ Partial }
    {
        match self.stage {
            Stage::Refused(fault) => Some(fault),
            _ => None,
        }
    }

    /// The record that is kept.
    pub fn whole(&self) -> Option<&[u8]>
        ensures whole { IfSome result (λ content. self.now ≡ Holding content.now) }
        ensures short { IfSome result (λ content. length content.now ≤ MOST_BYTES) }
        ensures none { IsNone result ↔ (kept_by self.now ≡ []) }
    {
        match self.stage {
            Stage::Whole => Some(&self.content),
            _ => None,
        }
    }

    /// Makes the reader a new one, at the beginning of another text. It takes no memory, so the room of one
    /// reader serves one stream after another.
    pub fn begin(&mut self)
        ensures fresh { self.new ≡ fresh }
        ensures stream { HasRead [] [] self.new }
    {
        self.content.clear();
        self.fragments = MOST_FRAGMENTS;
        self.stage = Stage::Head(0);
    }

    /// Drops the kept record, if there is one.
    pub fn next(&mut self)
        ensures next { self.new ≡ after_next self.old }
        ensures stream { (text : List ℕ) (dropped : List (List ℕ)) → HasRead text dropped self.old
            → HasRead text (dropped ++ kept_by self.old) self.new }
    {
        if let Stage::Whole = self.stage {
            self.begin();
        }
    }

    /// Whether no byte of an unfinished record was taken. After a refusal one was, its head.
    pub fn at_edge(&self) -> bool
        ensures { result ≡ is_at_edge self.now }
    {
        match self.stage {
            Stage::Head(taken) => taken == 0 && self.fragments == MOST_FRAGMENTS,
            Stage::Fragment(_, _) | Stage::Refused(_) => false,
            Stage::Whole => true,
        }
    }
}

//! The session of one stream.
ghost use Rattle.std.specs.Prelude.{◌≡◌, ◌<◌, ◌≤◌, ◌+◌, ◌^◌, List, IsSome, IfSome, IfNone, IfOk, OnOk, OnErr, None, Some, [], length};
ghost use Rattle.eb_base.specs.declared.width.Width.TheVariants.{W32};
ghost use Rattle.eb_codec.specs.Decoding.{record_in};
ghost use Rattle.eb_codec.specs.Short.{IsShortFlags, short_header, short_record};
ghost use Rattle.wb_signals.specs.declared.answer.Answer.{Answer};
ghost use Rattle.eb_session.specs.Keeping.{new_session, FeedsSession, MalformedExactly, Finishes, Advances, octets_taken};
ghost use Rattle.eb_session.specs.Keeping.{WasGiven, ItemRan, ItemUnrun, RecordRan, Unrun, is_item};

use crate::configuration::{shift, shifted};
use crate::operations::{is_last, put_ops};
use crate::replying::{put_header, put_probe, put_reply};
use crate::running::{cut_open, run_ops};
use crate::short::{put_short, short_ends, short_ops};
use crate::slave::{Slave, widths};
use eb_base::{NoMemory, Width};
use eb_codec::short::SHORT;
use eb_codec::{Decoder, Item, ShortRecord, Why};
use std::alloc::Global;
use std::marker::Model;
use wb_signals::{Master, Op};

/// How a session ended.
#[derive(Clone, Copy, Debug, PartialEq, Eq)]
pub enum End {
    /// The stream ended after a whole item.
    Clean,
    /// The stream ended inside an item, of which so many octets had come.
    Truncated(u64),
    /// The octet at this place of the stream, the first being 0, is the first that no stream has there.
    Malformed(u64, Why),
    /// The master had no memory for a record, of which nothing ran.
    NoMemory,
}

/// How many octets of the piece were taken, and whether they ended an item.
#[derive(Clone, Copy, Debug, PartialEq, Eq)]
pub struct Fed {
    pub taken: usize,
    pub item: bool,
}

/// An Etherbone slave's session: what it keeps of one stream (Etherbone 1.0).
///
/// It reads the stream's octets in any pieces, runs each whole record on a bus by its master, and answers each item.
/// Contracts see its slave, how far its decoder is, the error register, the reply to the item that the last call ended,
/// and its end.
#[derive(Drop)]
pub struct Session {
    slave: Slave,
    decoder: Decoder,
    ops: Vec<Op>,
    reply: Vec<u8>,
    errors: u64,
    ending: Option<End>,
}

impl Model for Session {
    ghost use Rattle.eb_session.specs.Keeping.{SessionState};
    ghost use Rattle.eb_session.specs.Inside.{state_in, IsSound};

    ghost Value = { SessionState };

    ghost view = { state_in };

    ghost invariant = { IsSound };
}

impl Session {
    /// A session of this slave.
    ///
    /// It takes all its memory here: rooms for an item of 4,104 octets, a record's 510 operations, and a reply of
    /// 2,056 octets.
    pub fn new(alloc: Global, slave: Slave) -> Result<Session, NoMemory>
        ensures fresh { IfOk result (λ s. s ≡ new_session slave) }
    {
        let decoder = Decoder::new(alloc, widths(slave.bus))?;
        let ops = match Vec::with_capacity(alloc, 510) {
            Ok(ops) => ops,
            Err(_) => return Err(NoMemory),
        };
        let reply = match Vec::with_capacity(alloc, 2056) {
            Ok(reply) => reply,
            Err(_) => return Err(NoMemory),
        };
        Ok(Session {
            slave,
            decoder,
            ops,
            reply,
            errors: 0,
            ending: None,
        })
    }

    /// The reply to the item that the last `feed` ended, at most 2,056 octets; empty where none ended or it isn't
    /// answered, and after an `End`.
    pub fn reply(&self) -> &[u8]
        ensures reply { result.now ≡ self.now.reply }
        ensures most { length result.now ≤ 2056 }
    {
        &self.reply
    }

    /// The error shift register: a bit for each of the last 64 bus operations of the session, the newest lowest, which
    /// is 1 where the operation was ended by ERR or RTY.
    pub fn errors(&self) -> u64
        ensures errors { result ≡ self.now.errors }
    {
        self.errors
    }

    /// How many of the octets that were taken belong to no whole item.
    pub fn pending(&self) -> usize
        ensures pending { result ≡ length self.now.progress.pending }
        ensures most { result ≤ 4103 }
    {
        self.decoder.pending()
    }

    /// Takes octets of the piece, up to the end of one item, runs the item, and replies to it.
    ///
    /// `item` is false exactly where less than an item pends; then the whole piece was taken. A record's operations are
    /// asked of the master in one call of its `record`, the writes first; no other item asks it. The session takes no
    /// memory itself.
    ///
    /// `Malformed` comes exactly where the piece has an octet that no stream has there, and names the first; `NoMemory`
    /// at a whole record that asked the master, of which nothing ran. After an `End` the open cycle was cut, the
    /// register is as it was, and each later `feed` and `finish` answers the same `End` and asks nothing.
    pub fn feed<M: Master>(
        &mut self,
        alloc: Global,
        master: &mut M,
        piece: &[u8],
    ) -> Result<Fed, End>
        requires width { (M.identity master.old).bus ≡ self.old.slave.bus }
        requires closed { IfSome self.old.ending (λ _. (M.cycles master.old).opened ≡ []) }
        requires fewer { octets_taken self.old + length piece.now < 2 ^ 64 }
        ensures fed { FeedsSession (M.identity master.old).number self.old piece.now self.new
            (M.cycles master.old) (M.cycles master.new) result }
        ensures malformed { MalformedExactly self.old piece.now result }
        ensures placed { IfOk result (λ fed. Advances self.old self.new (length piece.now) fed) }
        ensures bound { octets_taken self.new ≤ octets_taken self.old + length piece.now }
        ensures short { IfOk result (λ fed. length self.new.reply + length self.new.progress.pending
            ≤ length self.old.progress.pending + fed.taken) }
        ensures running { OnOk result (self.new.ending ≡ None) }
        ensures closed { OnErr result ((M.cycles master.new).opened ≡ []) }
        ensures slave { self.new.slave ≡ self.old.slave }
        ensures identity { M.identity master.new ≡ M.identity master.old }
    {
        match self.feed_short(alloc, master, piece) {
            Some(answer) => answer,
            None => self.feed_item(alloc, master, piece),
        }
    }

    // Takes a short record, where the piece begins with a whole one, nothing pends, and the bus has 32 bits: runs it,
    // and replies to it. Else it does nothing.
    #[inline(always)]
    fn feed_short<M: Master>(
        &mut self,
        alloc: Global,
        master: &mut M,
        piece: &[u8],
    ) -> Option<Result<Fed, End>>
        requires width { (M.identity master.old).bus ≡ self.old.slave.bus }
        requires fewer { octets_taken self.old + length piece.now < 2 ^ 64 }
        ensures fed { IfSome result (λ answer. FeedsSession (M.identity master.old).number self.old piece.now self.new
            (M.cycles master.old) (M.cycles master.new) answer) }
        ensures malformed { IfSome result (λ answer. MalformedExactly self.old piece.now answer) }
        ensures placed { IfSome result (λ answer.
            IfOk answer (λ fed. Advances self.old self.new (length piece.now) fed)) }
        ensures bound { octets_taken self.new ≤ octets_taken self.old + length piece.now }
        ensures short { IfSome result (λ answer.
            IfOk answer (λ fed. length self.new.reply + length self.new.progress.pending
            ≤ length self.old.progress.pending + fed.taken)) }
        ensures running { IfSome result (λ answer. OnOk answer (self.new.ending ≡ None)) }
        ensures closed { IfSome result (λ answer. OnErr answer ((M.cycles master.new).opened ≡ [])) }
        ensures left { IfNone result (self.new ≡ self.old) }
        ensures same { IfNone result (M.cycles master.new ≡ M.cycles master.old) }
        ensures slave { self.new.slave ≡ self.old.slave }
        ensures identity { M.identity master.new ≡ M.identity master.old }
    {
        if let Some(_) = self.ending {
            return None;
        }
        if self.slave.bus != Width::W32 {
            return None;
        }
        let short = self.decoder.take_short(piece)?;
        self.reply.clear();
        match self.run_short(alloc, master, short) {
            Ok(()) => Some(Ok(Fed {
                taken: SHORT,
                item: true,
            })),
            Err(_) => {
                self.ending = Some(End::NoMemory);
                cut_open(master);
                Some(Err(End::NoMemory))
            }
        }
    }

    // Takes octets up to the end of any item, and runs it.
    #[inline(always)]
    fn feed_item<M: Master>(
        &mut self,
        alloc: Global,
        master: &mut M,
        piece: &[u8],
    ) -> Result<Fed, End>
        requires width { (M.identity master.old).bus ≡ self.old.slave.bus }
        requires closed { IfSome self.old.ending (λ _. (M.cycles master.old).opened ≡ []) }
        requires fewer { octets_taken self.old + length piece.now < 2 ^ 64 }
        ensures fed { FeedsSession (M.identity master.old).number self.old piece.now self.new
            (M.cycles master.old) (M.cycles master.new) result }
        ensures malformed { MalformedExactly self.old piece.now result }
        ensures placed { IfOk result (λ fed. Advances self.old self.new (length piece.now) fed) }
        ensures bound { octets_taken self.new ≤ octets_taken self.old + length piece.now }
        ensures short { IfOk result (λ fed. length self.new.reply + length self.new.progress.pending
            ≤ length self.old.progress.pending + fed.taken) }
        ensures running { OnOk result (self.new.ending ≡ None) }
        ensures closed { OnErr result ((M.cycles master.new).opened ≡ []) }
        ensures slave { self.new.slave ≡ self.old.slave }
        ensures identity { M.identity master.new ≡ M.identity master.old }
    {
        self.reply.clear();
        if let Some(ending) = self.ending {
            return Err(ending);
        }
        match self.decoder.feed(piece) {
            Err(fault) => {
                let ending = End::Malformed(fault.place, fault.why);
                self.ending = Some(ending);
                cut_open(master);
                Err(ending)
            }
            Ok(step) => match self.run_item(alloc, master, step.item) {
                Ok(()) => Ok(Fed {
                    taken: step.taken,
                    item: has_item(step.item),
                }),
                Err(_) => {
                    self.ending = Some(End::NoMemory);
                    cut_open(master);
                    Err(End::NoMemory)
                }
            },
        }
    }

    // Runs the short record that the decoder just gave, and replies to it.
    #[inline(always)]
    fn run_short<M: Master>(
        &mut self,
        alloc: Global,
        master: &mut M,
        short: ShortRecord,
    ) -> Result<(), NoMemory>
        requires width { (M.identity master.old).bus ≡ self.old.slave.bus }
        requires bus { self.old.slave.bus ≡ W32 }
        requires header { self.old.progress.header ≡ Some short_header }
        requires shown { self.old.progress.shown ≡ Some (short_record short) }
        requires flags { IsShortFlags short.flags }
        requires empty { self.old.reply ≡ [] }
        ensures ran { OnOk result ((answers : List Answer) × RecordRan (M.identity master.old).number self.old self.new
            (M.cycles master.old) (M.cycles master.new) (record_in self.old.progress.shown) answers) }
        ensures unrun { OnErr result (Unrun self.old self.new (M.cycles master.old) (M.cycles master.new)) }
        ensures identity { M.identity master.new ≡ M.identity master.old }
    {
        run_ops(alloc, master, &short_ops(short), short_ends(short))?;
        let (wrote, read) = (master.answer(0), master.answer(1));
        self.errors = shift(shift(self.errors, wrote), read);
        put_short(short, read, &mut self.reply);
        Ok(())
    }

    // Runs what the decoder just gave, and replies to it.
    fn run_item<M: Master>(
        &mut self,
        alloc: Global,
        master: &mut M,
        item: Item,
    ) -> Result<(), NoMemory>
        requires width { (M.identity master.old).bus ≡ self.old.slave.bus }
        requires given { WasGiven item self.old.progress }
        requires empty { self.old.reply ≡ [] }
        ensures ran { OnOk result (ItemRan (M.identity master.old).number self.old self.new
            (M.cycles master.old) (M.cycles master.new) item) }
        ensures unrun { OnErr result (ItemUnrun self.old self.new (M.cycles master.old) (M.cycles master.new) item) }
        ensures identity { M.identity master.new ≡ M.identity master.old }
    {
        match item {
            Item::NotYet => {}
            Item::Probe(probe) => put_probe(self.slave, probe, &mut self.reply),
            Item::Header(header) => put_header(header, &mut self.reply),
            Item::Record(_) => return self.run_record(alloc, master),
        }
        Ok(())
    }

    // Runs the record that the decoder just gave, and replies to it.
    fn run_record<M: Master>(&mut self, alloc: Global, master: &mut M) -> Result<(), NoMemory>
        requires width { (M.identity master.old).bus ≡ self.old.slave.bus }
        requires shown { IsSome self.old.progress.shown }
        requires empty { self.old.reply ≡ [] }
        ensures ran { OnOk result ((answers : List Answer) × RecordRan (M.identity master.old).number self.old self.new
            (M.cycles master.old) (M.cycles master.new) (record_in self.old.progress.shown) answers) }
        ensures unrun { OnErr result (Unrun self.old self.new (M.cycles master.old) (M.cycles master.new)) }
        ensures identity { M.identity master.new ≡ M.identity master.old }
    {
        let record = self.decoder.record();
        put_ops(self.slave.bus, &record, &mut self.ops);
        run_ops(alloc, master, &self.ops, is_last(record.head().flags))?;
        self.errors = shifted(master, self.ops.len(), self.errors);
        put_reply(self.slave, &record, master, self.errors, &mut self.reply);
        Ok(())
    }

    /// Ends the session where its stream ends, and cuts the open cycle.
    ///
    /// `Clean` comes exactly where no octets pend and no other `End` came before, `Truncated` with the number of those
    /// that pend. A session that has ended answers its `End` again.
    pub fn finish<M: Master>(&mut self, master: &mut M) -> End
        requires closed { IfSome self.old.ending (λ _. (M.cycles master.old).opened ≡ []) }
        ensures finished { Finishes (M.identity master.old).number self.old self.new
            (M.cycles master.old) (M.cycles master.new) result }
        ensures ending { self.new.ending ≡ Some result }
        ensures closed { (M.cycles master.new).opened ≡ [] }
        ensures progress { self.new.progress ≡ self.old.progress }
        ensures slave { self.new.slave ≡ self.old.slave }
        ensures identity { M.identity master.new ≡ M.identity master.old }
    {
        self.reply.clear();
        if let Some(ending) = self.ending {
            return ending;
        }
        let pending = self.pending();
        let ending = if pending == 0 {
            End::Clean
        } else {
            End::Truncated(pending as u64)
        };
        self.ending = Some(ending);
        cut_open(master);
        ending
    }
}

// Whether the decoder gave an item.
fn has_item(item: Item) -> bool
    ensures value { result ≡ is_item item }
{
    match item {
        Item::NotYet => false,
        Item::Probe(_) | Item::Header(_) | Item::Record(_) => true,
    }
}

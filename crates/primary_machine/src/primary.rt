//! The primary of the machine.
ghost use Rattle.std.specs.Prelude.{[], ◌≡◌, ◌+◌, ℕ, Option, Some, None, IfOk, OnOk, OnErr, length, is_some, true, ◌||◌, ◌∷◌};
ghost use Rattle.std.specs.FinSet as set;
ghost use Rattle.rdf_model.specs.Running.{is_used};
ghost use Rattle.rdf_model.specs.Trail.{owner, raw, is_open};
ghost use Rattle.rdf_model.specs.Losers.{losers};
ghost use Rattle.rdf_model.specs.Contents.{nothing};
ghost use Rattle.rdf_model.specs.Lines.{after_change};
ghost use Rattle.plan_lang.specs.declared.lines.Line.TheVariants as line;
ghost use Rattle.rdf_types.specs.declared.records.Node.TheVariants.{A};
ghost use Rattle.rdf_disk.specs.declared.fault.Tear.{Tear};
ghost use Rattle.rdf_core.specs.declared.events.Standing.TheVariants.{Up, Down};
ghost use Rattle.rdf_core.specs.declared.replies.NoWhy.TheVariants as no;
ghost use Rattle.rdf_core.specs.Effects.{first, when, count_u64};
ghost use Rattle.rdf_core.specs.Primary.{Primary, needs_up, is_lost, is_up, needs_active, cannot_use, locked_for, primary_fallen, primary_status, stands};
ghost use Rattle.rdf_core.specs.Proper.{IsProper};
ghost use Rattle.rdf_core.specs.Rows.{AreRowsOf};
ghost use Rattle.rdf_core.specs.State.{blank_primary};
ghost use Rattle.primary_machine.specs.Backouts.{AreOpen};
ghost use Rattle.primary_machine.specs.Lines.{Performs, first_backed_out};

use crate::aborting::back_out;
use crate::images::{append_abort, append_commit, append_noted};
use crate::places::Places;
use crate::txns::TxnSet;
use active_txns::Active;
use rdf_core::events::Standing;
use rdf_core::laws::line_keeps_proper;
use rdf_core::replies::{NoWhy, Reply, RowList};
use rdf_model::laws::{abort_is_legal, one_holder, restart_runs};
use rdf_types::layout::Layout;
use rdf_types::names::Value;
use rdf_types::records::{RecKey, Record, Row, TxnId, VolNo, copy_of};
use std::alloc::{AllocError, Global};
use std::marker::Model;

/// The primary of the machine: its trail, and what would be dear to read off it.
#[derive(Drop)]
pub struct PrimaryState {
    alloc: Global,
    pub(crate) trail: Vec<Record>,
    active: TxnSet,
    standing: Standing,
    stops: u64,
    places: Places,
    used: TxnSet,
    founds: Active,
}

impl Model for PrimaryState {
    ghost use Rattle.rdf_core.specs.Primary.{Primary};
    ghost use Rattle.std.specs.Coded.{codes};
    ghost use Rattle.primary_machine.specs.Kept.{IsFit, txns_code};

    ghost Value = { Primary };

    ghost coded = { Prim.hlevel (codes, txns_code) };

    ghost view = { λ a. record { trail = a.trail.items; active = a.active; standing = a.standing; stops = a.stops } };

    ghost invariant = { λ a. IsFit a.trail.items a.active a.standing a.places a.used a.founds };
}

impl PrimaryState {
    /// An empty trail, and no transaction.
    pub fn new(alloc: Global) -> PrimaryState
        ensures { result ≡ blank_primary }
    {
        PrimaryState {
            alloc,
            trail: Vec::new(alloc),
            active: TxnSet::new(alloc),
            standing: Standing::Up,
            stops: 0,
            places: Places::new(alloc),
            used: TxnSet::new(alloc),
            founds: Active::new(alloc),
        }
    }

    /// Why a line that needs a running primary is refused.
    pub fn off(&self) -> Option<NoWhy>
        ensures { result ≡ needs_up self.now }
    {
        match self.standing {
            Standing::Up => None,
            Standing::Down => Some(NoWhy::Down),
            Standing::Lost => Some(NoWhy::Lost),
        }
    }

    /// Whether the primary is lost.
    pub fn is_lost(&self) -> bool
        ensures { result ≡ is_lost self.now.standing }
    {
        match self.standing {
            Standing::Lost => true,
            _ => false,
        }
    }

    /// The trail's length.
    pub fn len(&self) -> u64
        ensures { result ≡ length self.now.trail }
    {
        self.trail.len() as u64
    }

    /// Whether the transaction is active or has a record.
    fn is_taken(&self, txn: TxnId) -> bool
        ensures { result ≡ (set.contains self.now.active txn || is_used txn self.now.trail) }
    {
        self.active.contains(txn) || self.used.contains(txn)
    }

    /// Whether a value stands at the place.
    fn stands(&self, key: &RecKey) -> bool
        ensures { result ≡ stands self.now.trail key.now }
    {
        self.places.value(key).is_some()
    }

    /// The transaction that has the record.
    fn owner(&self, key: &RecKey) -> Option<TxnId>
        requires { self.now.standing ≡ Up }
        ensures { result ≡ owner self.now.trail key.now }
    {
        one_holder();
        match self.places.last_txn(key) {
            None => None,
            Some(by) => {
                if self.active.contains(by) {
                    Some(by)
                } else {
                    None
                }
            }
        }
    }

    /// Why another transaction has the record.
    fn lock(&self, txn: TxnId, key: &RecKey) -> Option<NoWhy>
        requires { self.now.standing ≡ Up }
        ensures { result ≡ locked_for txn (owner self.now.trail key.now) }
    {
        match self.owner(key) {
            None => None,
            Some(by) => {
                if by == txn {
                    None
                } else {
                    Some(NoWhy::Locked { by })
                }
            }
        }
    }

    /// Why the transaction has no say over the record.
    fn bar(&self, layout: &Layout, txn: TxnId, key: &RecKey) -> Option<NoWhy>
        ensures { result ≡ cannot_use layout.now self.now txn key.now }
    {
        if let Some(why) = self.off() {
            return Some(why);
        }
        if !self.active.contains(txn) {
            return Some(NoWhy::Txn);
        }
        if key.vol.number() >= layout.volumes {
            return Some(NoWhy::Volume);
        }
        self.lock(txn, key)
    }

    /// Adds an image.
    fn change(&mut self, txn: TxnId, key: &RecKey, after: Option<Value>) -> Result<(), AllocError>
        requires { IsProper self.old → IsProper (record self.old { trail = after_change self.old.trail txn key.now after }) }
        ensures ok { OnOk result (self.new ≡ record self.old { trail = after_change self.old.trail txn key.now after }) }
        ensures err { OnErr result (self.new ≡ self.old) }
    {
        append_noted(
            &mut self.trail,
            &mut self.places,
            &mut self.used,
            &mut self.founds,
            txn,
            key,
            after,
        )
    }

    /// The line `begin`.
    pub fn begin(&mut self, layout: &Layout, txn: TxnId) -> Result<Reply, AllocError>
        ensures ok { IfOk result (λ reply. Performs layout.now (line.Begin txn) self.old reply self.new) }
        ensures err { OnErr result (self.new ≡ self.old) }
    {
        if let Some(why) = self.off() {
            return Ok(Reply::No { why });
        }
        if self.is_taken(txn) {
            return Ok(Reply::No { why: NoWhy::Used });
        }
        line_keeps_proper();
        self.active.insert(txn)?;
        Ok(Reply::Done)
    }

    /// The line `insert`.
    pub fn insert(
        &mut self,
        layout: &Layout,
        txn: TxnId,
        key: &RecKey,
        value: &Value,
    ) -> Result<Reply, AllocError>
        ensures ok { IfOk result (λ reply. Performs layout.now (line.Insert txn key.now value.now) self.old reply self.new) }
        ensures err { OnErr result (self.new ≡ self.old) }
    {
        if let Some(why) = self.bar(layout, txn, key) {
            return Ok(Reply::No { why });
        }
        if self.stands(key) {
            return Ok(Reply::No { why: NoWhy::Exists });
        }
        line_keeps_proper();
        let after = value.try_clone()?;
        self.change(txn, key, Some(after))?;
        Ok(Reply::Number { n: self.len() })
    }

    /// The line `lose`.
    pub fn lose(&mut self, layout: &Layout) -> Reply
        ensures { Performs layout.now line.Lose self.old result self.new }
    {
        match self.standing {
            Standing::Lost => Reply::No { why: NoWhy::Lost },
            _ => {
                line_keeps_proper();
                self.standing = Standing::Lost;
                self.active.clear();
                Reply::Done
            }
        }
    }

    /// The line `update`.
    pub fn update(
        &mut self,
        layout: &Layout,
        txn: TxnId,
        key: &RecKey,
        value: &Value,
    ) -> Result<Reply, AllocError>
        ensures ok { IfOk result (λ reply. Performs layout.now (line.Update txn key.now value.now) self.old reply self.new) }
        ensures err { OnErr result (self.new ≡ self.old) }
    {
        if let Some(why) = self.bar(layout, txn, key) {
            return Ok(Reply::No { why });
        }
        if !self.stands(key) {
            return Ok(Reply::No {
                why: NoWhy::Missing,
            });
        }
        line_keeps_proper();
        let after = value.try_clone()?;
        self.change(txn, key, Some(after))?;
        Ok(Reply::Number { n: self.len() })
    }

    /// The line `delete`.
    pub fn delete(&mut self, layout: &Layout, txn: TxnId, key: &RecKey) -> Result<Reply, AllocError>
        ensures ok { IfOk result (λ reply. Performs layout.now (line.Delete txn key.now) self.old reply self.new) }
        ensures err { OnErr result (self.new ≡ self.old) }
    {
        if let Some(why) = self.bar(layout, txn, key) {
            return Ok(Reply::No { why });
        }
        if !self.stands(key) {
            return Ok(Reply::No {
                why: NoWhy::Missing,
            });
        }
        line_keeps_proper();
        self.change(txn, key, None)?;
        Ok(Reply::Number { n: self.len() })
    }

    /// The line `get`.
    pub fn get(&self, layout: &Layout, txn: TxnId, key: &RecKey) -> Result<Reply, AllocError>
        ensures { IfOk result (λ reply. Performs layout.now (line.Get txn key.now) self.now reply self.now) }
    {
        if let Some(why) = self.bar(layout, txn, key) {
            return Ok(Reply::No { why });
        }
        match self.shown(key)? {
            Some(value) => Ok(Reply::Got { value }),
            None => Ok(Reply::No {
                why: NoWhy::Missing,
            }),
        }
    }

    /// A copy of the value that stands at the place.
    fn shown(&self, key: &RecKey) -> Result<Option<Value>, AllocError>
        ensures { IfOk result (λ value. value ≡ raw nothing self.now.trail key.now) }
    {
        copy_of(self.places.value(key))
    }

    /// The line `cut`.
    pub fn cut(&mut self, layout: &Layout) -> Reply
        ensures { Performs layout.now (line.Cut A) self.old result self.new }
    {
        match self.standing {
            Standing::Lost => Reply::No { why: NoWhy::Lost },
            Standing::Down => Reply::No { why: NoWhy::Down },
            Standing::Up => {
                self.standing = Standing::Down;
                self.active.clear();
                Reply::Done
            }
        }
    }

    /// Why the transaction may not end.
    pub(crate) fn idle(&self, txn: TxnId) -> Option<NoWhy>
        ensures { result ≡ first (needs_up self.now ∷ needs_active self.now txn ∷ []) }
    {
        if let Some(why) = self.off() {
            return Some(why);
        }
        if self.active.contains(txn) {
            None
        } else {
            Some(NoWhy::Txn)
        }
    }

    /// The line `commit`.
    pub fn commit(&mut self, layout: &Layout, txn: TxnId) -> Result<Reply, AllocError>
        ensures ok { IfOk result (λ reply. Performs layout.now (line.Commit txn) self.old reply self.new) }
        ensures err { OnErr result (self.new ≡ self.old) }
    {
        if let Some(why) = self.idle(txn) {
            return Ok(Reply::No { why });
        }
        line_keeps_proper();
        append_commit(&mut self.trail, &self.used, &mut self.founds, txn)?;
        self.active.remove(txn);
        Ok(Reply::Number {
            n: self.trail.len() as u64,
        })
    }

    /// The line `abort`: what the transaction changed is set back, in the order of volume, file and key.
    pub fn abort(&mut self, layout: &Layout, txn: TxnId) -> Result<Reply, AllocError>
        ensures ok { IfOk result (λ reply. Performs layout.now (line.Abort txn) self.old reply self.new) }
        ensures err { OnErr result (self.new ≡ self.old) }
    {
        if let Some(why) = self.idle(txn) {
            return Ok(Reply::No { why });
        }
        line_keeps_proper();
        append_abort(
            self.alloc,
            &mut self.trail,
            &mut self.places,
            &self.used,
            &mut self.founds,
            txn,
            None,
        )?;
        self.active.remove(txn);
        Ok(Reply::Number {
            n: self.trail.len() as u64,
        })
    }

    /// Why the primary is not restarted.
    fn bar_of_restart(&self) -> Option<NoWhy>
        ensures { result ≡ first (when (is_lost self.now.standing) no.Lost ∷ when (is_up self.now.standing) no.Up ∷ []) }
    {
        match self.standing {
            Standing::Lost => Some(NoWhy::Lost),
            Standing::Up => Some(NoWhy::Up),
            Standing::Down => None,
        }
    }

    /// The transactions that have an image and no outcome, by rising number.
    pub(crate) fn open(&self) -> Result<Vec<TxnId>, AllocError>
        ensures { IfOk result (λ txns. txns.items ≡ losers self.now.trail) }
    {
        self.founds.open()
    }

    /// The line `restart a`: each open transaction is backed out, by rising number.
    pub fn restart(&mut self, layout: &Layout) -> Result<Reply, AllocError>
        ensures ok { IfOk result (λ reply. Performs layout.now (line.Restart A) self.old reply self.new) }
        ensures err { OnErr result (self.new ≡ self.old) }
    {
        restart_runs();
        if let Some(why) = self.bar_of_restart() {
            return Ok(Reply::No { why });
        }
        let open = self.open()?;
        back_out(
            self.alloc,
            &mut self.founds,
            &mut self.trail,
            &mut self.places,
            &open,
            None,
        )?;
        self.standing = Standing::Up;
        Ok(Reply::Number {
            n: open.len() as u64,
        })
    }

    /// The first `done` records of the backout of these transactions, and the primary down. An `Err` leaves all as it was.
    pub(crate) fn back_out_first(&mut self, txns: &[TxnId], done: u32) -> Result<(), AllocError>
        requires { AreOpen self.old.trail txns.now }
        ensures ok { OnOk result (self.new ≡ first_backed_out self.old txns.now done) }
        ensures err { OnErr result (self.new ≡ self.old) }
    {
        abort_is_legal();
        let most = self.trail.len() + done as usize;
        back_out(
            self.alloc,
            &mut self.founds,
            &mut self.trail,
            &mut self.places,
            txns,
            Some(most),
        )?;
        note_stop(&mut self.standing, &mut self.active, &mut self.stops);
        Ok(())
    }

    /// A disk stops, and the primary is down.
    pub fn fall(&mut self)
        ensures { self.new ≡ primary_fallen 1 self.old }
    {
        note_stop(&mut self.standing, &mut self.active, &mut self.stops);
    }

    /// Whether a transaction that may end has a record.
    pub(crate) fn is_open(&self, txn: TxnId) -> bool
        ensures { first (needs_up self.now ∷ needs_active self.now txn ∷ []) ≡ None → result ≡ is_open txn self.now.trail }
    {
        self.used.contains(txn)
    }

    /// The line `status a`.
    pub fn status(&self) -> Reply
        ensures { result ≡ primary_status self.now.standing self.now }
    {
        match self.standing {
            Standing::Up => Reply::PrimaryUp {
                len: self.len(),
                active: self.active.count(),
            },
            Standing::Down => Reply::NodeDown,
            Standing::Lost => Reply::NodeLost,
        }
    }

    /// The line `fuse a`. Here no disk stops by itself: an event says where one does.
    pub fn fuse(&self, layout: &Layout, disk: u8) -> Reply
        ensures { (calls : ℕ) (tear : Tear) → Performs layout.now (line.Fuse A disk calls tear) self.now result self.now }
    {
        match self.standing {
            Standing::Lost => Reply::No { why: NoWhy::Lost },
            _ => {
                if disk > layout.volumes {
                    return Reply::No { why: NoWhy::Volume };
                }
                Reply::Done
            }
        }
    }

    /// The line `list a`: the rows of a volume, in the order of file and key.
    pub fn list(&self, layout: &Layout, vol: VolNo) -> Result<Reply, AllocError>
        ensures { IfOk result (λ reply. Performs layout.now (line.List A vol) self.now reply self.now) }
    {
        if let Some(why) = self.off() {
            return Ok(Reply::No { why });
        }
        if vol.number() >= layout.volumes {
            return Ok(Reply::No { why: NoWhy::Volume });
        }
        let rows = self.rows(vol)?;
        Ok(Reply::Rows {
            at: self.len(),
            rows: RowList::new(rows),
        })
    }

    fn rows(&self, vol: VolNo) -> Result<Vec<Row>, AllocError>
        ensures { IfOk result (λ rows. AreRowsOf vol (raw nothing self.now.trail) rows.items) }
    {
        self.places.rows(self.alloc, vol)
    }
}

// A disk stops: the node is down, and its transactions are active no more.
fn note_stop(standing: &mut Standing, active: &mut TxnSet, stops: &mut u64)
    ensures standing { standing.new ≡ Down }
    ensures active { active.new ≡ set.empty }
    ensures stops { stops.new ≡ count_u64 (stops.old + 1) }
{
    *standing = Standing::Down;
    active.clear();
    *stops = stops.saturating_add(1);
}

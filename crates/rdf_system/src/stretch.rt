//! A session over threads: its lines are driven while each protected volume of its node has an updater of its own.
ghost use Rattle.std.specs.Prelude.{◌≡◌, true, Some, None, IfOk, IfErr, IfSome};
ghost use Rattle.rdf_types.specs.declared.layout.Layout.{Layout as AnyLayout};
ghost use Rattle.rdf_types.specs.declared.records.Node.{Node as AnyNode};
ghost use Rattle.rdf_disk.specs.declared.disk.Disk.{Ghosts};
ghost use Rattle.rdf_core.specs.Allowed.{is_backup};
ghost use Rattle.rdf_backup.specs.Sessions.{MayGoOn, open_of, trails_name, txns_name, places_of};
ghost use Rattle.rdf_backup.specs.Sessions.{Open as AnyOpen};
ghost use Rattle.rdf_system.specs.NodeLines.{site_at, HasNode};
ghost use Rattle.rdf_system.specs.Opened.{OpenView as AnyView, MayLend, view_of};
ghost use Rattle.rdf_system.specs.OpenLines.{KeepsLent};
ghost use Rattle.rdf_system.specs.States.{layout_of};

use crate::opened::OpenSystem;
use crate::session::{SessionState, session_behind};
use crate::site::Site;
use crate::system::System;
use backup_node::laws::{nodes_go_on, nodes_stand};
use backup_node::{BackupNode, NodeEnd};
use node_faults::NodeFault;
use plan_lang::lines::Line;
use rdf_backup::{Here, NotBegun, Session};
use rdf_core::laws::{backup_cut_lifts, backup_lifts, present_points_go, volumes_move};
use rdf_core::replies::Reply;
use rdf_disk::Disk;
use rdf_ports::Gate;
use rdf_types::records::Node;
use std::snapshot::Snapshot;
use std::sync::Wait;
use std::thread::Threads;

/// The lines of a session, from behind the one that opened it.
pub trait Stretch<D: Disk> {
    /// What comes of it.
    type Out;

    /// What the value needs of the system's layout and of the session's node.
    ghost Ready: { Self → AnyLayout → AnyNode → Type 0 };

    /// How the value, the system as the session was opened, what comes of it, and the system as the session was left are related.
    ghost Drives: { Self → (d : Ghosts D) → AnyView D d → Self.Out → AnyView D d → Type 0 };

    /// Drives the lines, by `open_line`, up to the end of the session or to one that was not answered.
    fn run(self, session: &mut Session<'_, '_, D>, beside: &mut OpenSystem<D>) -> Self::Out
        requires goes { MayGoOn D.tells D.files session.old }
        requires lends { MayLend D.tells D.files D.counts beside.old.lent.value beside.old.system }
        requires ready { Ready self (layout_of beside.old.system) beside.old.lent.value.name }
        ensures goes { MayGoOn D.tells D.files session.new }
        ensures same_trails { trails_name session.new ≡ trails_name session.old }
        ensures same_txns { txns_name session.new ≡ txns_name session.old }
        ensures same_places { places_of session.new ≡ places_of session.old }
        ensures keeps { KeepsLent D.tells D.files D.counts (view_of (open_of session.old) beside.old) (view_of (open_of session.new) beside.new) }
        ensures drives { Drives self D.Disk (view_of (open_of session.old) beside.old) result (view_of (open_of session.new) beside.new) };
}

/// What is driven in a session of a node: the rest of the system, and the lines.
#[derive(Drop)]
struct Inside<D: Disk, H> {
    beside: OpenSystem<D>,
    stretch: H,
}

/// The same behind the lines.
#[derive(Drop)]
struct Behind<D: Disk, O> {
    beside: OpenSystem<D>,
    out: O,
}

impl<D: Disk + Drop, H: Stretch<D>> Here<D> for Inside<D, H>
where
    H::Out: Drop,
{
    ghost use Rattle.rdf_system.specs.Opened.{IsSameOpen};

    type Out = Behind<D, H::Out>;

    ghost Ready = { λ i. MayLend D.tells D.files D.counts i.beside.lent.value i.beside.system × H.Ready i.stretch (layout_of i.beside.system) i.beside.lent.value.name };

    ghost Drives = { λ i d opened b closed. (o c : AnyOpen D D.Disk) → IsSameOpen opened o → IsSameOpen closed c →
        KeepsLent D.tells D.files D.counts (view_of o i.beside) (view_of c b.beside) × H.Drives i.stretch D.Disk (view_of o i.beside) b.out (view_of c b.beside) };

    fn drive(self, session: &mut Session<'_, '_, D>) -> Behind<D, H::Out> {
        let Inside {
            mut beside,
            stretch,
        } = self;
        let out = stretch.run(session, &mut beside);
        Behind { beside, out }
    }
}

/// A session that was driven and ended: the system, what came of the lines, and what is told at the end: the reply to the line
/// `end`, or to one that met something on the session's node, or the node's fault. That a disk stopped is a reply.
#[derive(Drop)]
pub struct InSession<D: Disk, O> {
    pub system: System<D>,
    pub out: O,
    pub told: Result<Reply, NodeFault>,
}

/// A session that was not begun: for want of memory, or where the disks do not tell what they hold and what is kept of the
/// audit, or a restart point, is out of its place.
#[derive(Drop)]
pub struct NotInSession<D: Disk, H> {
    pub system: System<D>,
    pub stretch: H,
}

/// The node of a site, out of it.
fn lent_by<D: Disk>(site: &mut Site<D>) -> BackupNode<D>
    requires there { HasNode (λ n. Unit {0}) site.old }
    ensures was { site.old.node ≡ Some result }
    ensures rest { site.new ≡ record site.old { node = None } }
{
    match site.node.take() {
        Some(lent) => lent,
        None => unreachable!(),
    }
}

impl<D: Disk + Drop> System<D> {
    ghost use Rattle.rdf_system.specs.Closing.{told_in};
    ghost use Rattle.rdf_system.specs.NodeLines.{with_site};
    ghost use Rattle.rdf_system.specs.Opened.{MayOpen};
    ghost use Rattle.rdf_system.specs.Sessions.{has_stopped, running_in};
    ghost use Rattle.rdf_system.specs.Stances.{IsHeld, stances_of};

    /// The node on which a session may be begun, behind its line: of one that was not refused, in which no disk stopped.
    pub fn opened_on(&self) -> Option<Node>
        ensures is { result ≡ running_in self.now.session }
        ensures open { IsHeld (stances_of self.now) → IfSome result (λ node. MayOpen node self.now) }
    {
        match self.session {
            SessionState::Open { node, stopped } => {
                if stopped {
                    return None;
                }
                Some(node)
            }
            _ => None,
        }
    }

    /// Whether a disk of its node stopped in the session that is open.
    pub fn has_stopped(&self) -> bool
        ensures { result ≡ has_stopped self.now.session }
    {
        match self.session {
            SessionState::Open { node: _, stopped } => stopped,
            _ => false,
        }
    }

    /// The place of a node.
    pub(crate) fn place_of(&self, node: Node) -> &Site<D>
        ensures { result.now ≡ site_at self.now node }
    {
        self.sites.get(node)
    }

    /// Takes a backup's node out of its site.
    pub(crate) fn lend(&mut self, node: Node) -> BackupNode<D>
        requires there { HasNode (λ n. Unit {0}) (site_at self.old node) }
        ensures was { (site_at self.old node).node ≡ Some result }
        ensures rest { self.new ≡ with_site self.old node (record (site_at self.old node) { node = None }) self.old.session }
    {
        lent_by(self.sites.get_mut(node))
    }

    /// Puts it back.
    pub(crate) fn put_back(&mut self, node: Node, lent: BackupNode<D>)
        ensures { self.new ≡ with_site self.old node (record (site_at self.old node) { node = Some lent }) self.old.session }
    {
        self.sites.get_mut(node).node = Some(lent);
    }

    /// Notes what is told at the end of a session: by its line `end`, or by one of its node that met something.
    pub fn note_told(&mut self, line: &Line, told: &Result<Reply, NodeFault>)
        ensures { self.new ≡ told_in line.now told.now self.old }
    {
        if let Ok(reply) = told {
            self.session = session_behind(self.session, line, reply);
        }
    }
}

impl<D: Disk + Drop + Send> System<D> {
    ghost use Rattle.rdf_system.specs.Closing.{HasRunIn, IsUnbegunIn};
    ghost use Rattle.rdf_system.specs.Opened.{MayOpen};
    ghost use Rattle.rdf_system.specs.States.{MayServe};

    /// A session over threads, from behind its line to its end. The node lends its backup to the stretch, which drives the
    /// lines, and each protected volume has an updater in a thread of its own meanwhile.
    ///
    /// Where no session is begun the system and the stretch come back.
    pub fn in_session<R: Threads + Wait + Sync, G: Gate + Sync, H: Stretch<D> + Drop>(
        self,
        rt: &R,
        node: Node,
        gate: &G,
        stretch: H,
    ) -> Result<InSession<D, H::Out>, NotInSession<D, H>>
    where
        H::Out: Drop,
        requires placed { is_backup (layout_of self) node ≡ true }
        requires open { MayOpen node self }
        requires ready { H.Ready stretch (layout_of self) node }
        requires serves { MayServe D.tells D.files D.counts self }
        ensures unbegun { IfErr result (λ u. (u.stretch ≡ stretch) × IsUnbegunIn D.tells D.files D.counts self u.system) }
        ensures runs { IfOk result (λ e. HasRunIn D.tells D.files D.counts (H.Drives stretch D.Disk) e.out e.told self e.system) }
    {
        backup_lifts();
        backup_cut_lifts();
        present_points_go();
        volumes_move();
        nodes_stand::<D>();
        nodes_go_on::<D>();
        let mut system = self;
        let mut lent = system.lend(node);
        let inside = Inside {
            beside: OpenSystem {
                system,
                lent: Snapshot::of(&lent),
            },
            stretch,
        };
        match lent.in_session(rt, gate, inside) {
            Ok(ended) => {
                let NodeEnd { out, told } = ended;
                let Behind { beside, out } = out;
                let OpenSystem {
                    mut system,
                    lent: _,
                } = beside;
                system.primary.stands();
                system.put_back(node, lent);
                Ok(InSession { system, out, told })
            }
            Err(unbegun) => {
                let NotBegun { here } = unbegun;
                let Inside { beside, stretch } = here;
                let OpenSystem {
                    mut system,
                    lent: _,
                } = beside;
                system.put_back(node, lent);
                Err(NotInSession { system, stretch })
            }
        }
    }
}

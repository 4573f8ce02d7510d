//! Each kind of line on the primary's node.
ghost use Rattle.std.specs.Prelude.{◌≡◌, Some};
ghost use Rattle.plan_lang.specs.declared.lines.Line.TheVariants as lines;
ghost use Rattle.rdf_types.specs.declared.records.Node.TheVariants.{A};
ghost use Rattle.primary_node.specs.Lines.{stop_told, why_off, status_off};

use crate::node::PrimaryNode;
use node_faults::NodeFault;
use plan_lang::lines::Line;
use rdf_core::replies::{NoWhy, Reply};
use rdf_disk::Disk;
use rdf_primary::Primary;
use rdf_types::records::Node;

/// How a fault of the node is answered: a disk that stopped is told by a reply.
pub(crate) fn stop_told(fault: NodeFault) -> Result<Reply, NodeFault>
    ensures { result ≡ stop_told fault }
{
    match fault {
        NodeFault::Stopped { disk: _ } => Ok(Reply::Stopped { node: Node::A }),
        _ => Err(fault),
    }
}

impl<D: Disk + Drop> PrimaryNode<D> {
    ghost use Rattle.rdf_primary.specs.Replies.{IsAnswered};
    ghost use Rattle.primary_node.specs.Nodes.{MayServe};
    ghost use Rattle.primary_node.specs.Lines.{NeedsUp};
    ghost use Rattle.primary_node.specs.Calls.{Does};

    /// The line `lose`: the node never comes back.
    pub(crate) fn lose(&mut self) -> Result<Reply, NodeFault>
        requires serves { MayServe D.tells D.files D.counts self.old }
        ensures { Does D.tells D.files D.counts lines.Lose result self.old self.new }
    {
        if self.lost {
            return Ok(Reply::No { why: NoWhy::Lost });
        }
        match self.primary.take() {
            Some(primary) => {
                self.fall(primary);
                self.lost = true;
                Ok(Reply::Done)
            }
            None => {
                self.lost = true;
                Ok(Reply::Done)
            }
        }
    }

    /// The line `cut a`.
    pub(crate) fn cut(&mut self) -> Result<Reply, NodeFault>
        requires serves { MayServe D.tells D.files D.counts self.old }
        ensures { Does D.tells D.files D.counts (lines.Cut A) result self.old self.new }
    {
        match self.primary.take() {
            Some(primary) => {
                self.fall(primary);
                Ok(Reply::Done)
            }
            None => Ok(Reply::No {
                why: self.why_off(),
            }),
        }
    }

    /// Why a line is refused by a node that is not up.
    pub fn why_off(&self) -> NoWhy
        ensures { result ≡ why_off self.now.lost }
    {
        if self.lost {
            return NoWhy::Lost;
        }
        NoWhy::Down
    }

    /// A line that the primary answers, which is up.
    fn asked(&mut self, mut primary: Primary<D>, line: &Line) -> Result<Reply, NodeFault>
        requires answered { IsAnswered line.now }
        requires serves { MayServe D.tells D.files D.counts (record self.old { primary = Some primary }) }
        ensures { Does D.tells D.files D.counts line.now result (record self.old { primary = Some primary }) self.new }
    {
        match primary.line(line) {
            Ok(reply) => {
                self.primary = Some(primary);
                Ok(reply)
            }
            Err(fault) => {
                self.fall(primary);
                stop_told(fault)
            }
        }
    }

    /// A line of a transaction, or the list of a volume.
    pub(crate) fn answered(&mut self, line: &Line) -> Result<Reply, NodeFault>
        requires answered { NeedsUp line.now }
        requires serves { MayServe D.tells D.files D.counts self.old }
        ensures { Does D.tells D.files D.counts line.now result self.old self.new }
    {
        match self.primary.take() {
            None => Ok(Reply::No {
                why: self.why_off(),
            }),
            Some(primary) => self.asked(primary, line),
        }
    }

    /// The line `status a`.
    pub(crate) fn status(&mut self, line: &Line) -> Result<Reply, NodeFault>
        requires is_status { line.now ≡ lines.Status A }
        requires serves { MayServe D.tells D.files D.counts self.old }
        ensures { Does D.tells D.files D.counts line.now result self.old self.new }
    {
        match self.primary.take() {
            Some(primary) => self.asked(primary, line),
            None => Ok(self.status_off()),
        }
    }

    /// The status of a node that is not up.
    fn status_off(&self) -> Reply
        ensures { result ≡ status_off self.now.lost }
    {
        if self.lost {
            return Reply::NodeLost;
        }
        Reply::NodeDown
    }
}

//! What a line and its reply add to a summary.
ghost use Rattle.std.specs.Prelude.{◌≡◌, ◌+◌, cond};
ghost use Rattle.plan_lang.specs.LineText.{same_node};
ghost use Rattle.rdf_core.specs.Agreement.{number_told, takeover_ok};
ghost use Rattle.rdf_core.specs.Effects.{count_u64};
ghost use Rattle.load_summary.specs.Summary.{is_done, is_refused, is_stopped, rows_in, rows_of};

use plan_lang::lines::Line;
use rdf_core::replies::Reply;
use rdf_types::records::Node;

/// A count with so many more.
pub fn added(n: u64, more: u64) -> u64
    ensures { result ≡ count_u64 (n + more) }
{
    n.saturating_add(more)
}

/// A count with one more where the test holds.
pub fn added_where(n: u64, test: bool) -> u64
    ensures { result ≡ count_u64 (n + cond test 1 0) }
{
    if test { added(n, 1) } else { added(n, 0) }
}

/// Whether both are the same node.
pub fn is_same(of: Node, node: Node) -> bool
    ensures { result ≡ same_node of node }
{
    of == node
}

/// Whether the reply begins with `ok`.
pub fn is_done(reply: &Reply) -> bool
    ensures { result ≡ is_done reply.now }
{
    !is_refused(reply) && !is_stopped(reply)
}

/// Whether the reply begins with `no`.
pub fn is_refused(reply: &Reply) -> bool
    ensures { result ≡ is_refused reply.now }
{
    match reply {
        Reply::No { .. } => true,
        _ => false,
    }
}

/// Whether the reply begins with `stopped`.
pub fn is_stopped(reply: &Reply) -> bool
    ensures { result ≡ is_stopped reply.now }
{
    match reply {
        Reply::Stopped { .. } => true,
        _ => false,
    }
}

fn number_told(reply: &Reply) -> Option<u64>
    ensures { result ≡ number_told reply.now }
{
    match reply {
        Reply::Number { n } => Some(*n),
        _ => None,
    }
}

/// The position up to which a takeover of the node came, where the line is one that ended.
pub fn taken_in(node: Node, line: &Line, reply: &Reply) -> Option<u64>
    ensures { result ≡ takeover_ok node line.now reply.now }
{
    match line {
        Line::Takeover { node: of } => {
            if is_same(node, *of) {
                number_told(reply)
            } else {
                None
            }
        }
        _ => None,
    }
}

fn rows_of(reply: &Reply) -> u64
    ensures { result ≡ rows_of reply.now }
{
    match reply {
        Reply::Rows { rows, .. } => rows.rows().len() as u64,
        _ => 0,
    }
}

/// How many rows are listed of the node.
pub fn rows_in(node: Node, line: &Line, reply: &Reply) -> u64
    ensures { result ≡ rows_in node line.now reply.now }
{
    match line {
        Line::List { node: of, .. } => {
            if is_same(*of, node) {
                rows_of(reply)
            } else {
                0
            }
        }
        _ => 0,
    }
}

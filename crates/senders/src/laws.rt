//! What was sent of a trail that grows.
ghost use Rattle.std.specs.Prelude.{List, ◌++◌};
ghost use Rattle.rdf_types.specs.declared.layout.Layout.{Layout};
ghost use Rattle.rdf_types.specs.declared.records.Record.{Record};
ghost use Rattle.rdf_core.specs.Sender.{Sender};
ghost use Rattle.by_node.specs.Each.{Each};
ghost use Rattle.senders.specs.Sending.{Sending, AreSenders};

/// The senders over a trail are those over a longer one.
pub fn longer()
    ensures { (layout : Layout) (trail more : List Record) (machine : Each Sender) (sending : Sending) →
        AreSenders layout trail machine sending → AreSenders layout (trail ++ more) machine sending }
{}

//! Where the replies to a plan's lines go.
ghost use Rattle.std.specs.Prelude.{◌≡◌, ◌≢◌, ◌∷◌, [], ℕ, Err, OnOk, refl};
ghost use Rattle.rdf_core.specs.declared.replies.Reply.TheVariants.{Done, Number};
ghost use Rattle.rdf_monitor.specs.declared.fault.AnswerFault.TheVariants.{Write, NoMemory};
ghost use Rattle.rdf_monitor.specs.Faults.{CountsAnswer};
ghost use Rattle.rdf_monitor.specs.Output.{Output, Joins, texts_out};
ghost use Rattle.rdf_monitor.specs.Joining.{texts_join, no_text};

use crate::fault::AnswerFault;
use crate::replying::reply_to;
use plan_lang::lines::Line;
use rdf_core::replies::Reply;
use rdf_ports::Sink;
use std::alloc::Global;
use std::marker::PhantomData;

/// How the replies to a plan's lines are taken, one after the other.
pub trait Answering {
    /// Where they go.
    type Out;

    // What was given out between the two, and the count of faults.
    ghost given: { Self.Out → Self.Out → Output };

    ghost faults: { Self.Out → ℕ };

    /// Takes the reply to a line. After want of memory nothing of it is out; that a line is done, and a number, want none.
    fn take(
        alloc: Global,
        out: &mut Self::Out,
        line: &Line,
        reply: Reply,
    ) -> Result<(), AnswerFault>
        ensures ok { OnOk result ((given out.old out.new).whole (line.now ∷ []) (reply ∷ [])) }
        ensures part { result ≡ Err AnswerFault.Write → (given out.old out.new).part [] [] line.now reply }
        ensures unwritten { result ≡ Err AnswerFault.NoMemory → (given out.old out.new).none }
        ensures done { result ≡ Err AnswerFault.NoMemory → reply ≢ Done }
        ensures number { (n : ℕ) → result ≡ Err AnswerFault.NoMemory → reply ≢ Number n }
        ensures faults { CountsAnswer result (faults out.old) (faults out.new) };

    ghost begins: { (a : Self.Out) → (given a a).whole [] [] };

    ghost stays: { (a : Self.Out) → (given a a).none };

    ghost joins: { (a b c : Self.Out) → Joins (given a b) (given b c) (given a c) };
}

/// The replies are written as texts to a sink.
pub struct ByText<K> {
    sink: PhantomData<K>,
}

impl<K: Sink> Answering for ByText<K> {
    type Out = K;

    ghost given = { λ a b. texts_out K.tells (K.written a) (K.written b) };

    ghost faults = { λ a. K.faults a };

    fn take(alloc: Global, out: &mut K, _line: &Line, reply: Reply) -> Result<(), AnswerFault> {
        reply_to(alloc, out, &reply)
    }

    ghost begins = { λ a. no_text K.tells (K.written a) };

    ghost stays = { λ a. refl };

    ghost joins = { λ a b c. texts_join K.tells (K.written a) (K.written b) (K.written c) };
}

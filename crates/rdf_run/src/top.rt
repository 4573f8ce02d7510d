//! The top call.
ghost use Rattle.std.specs.Prelude.{map, string_bytes};
ghost use Rattle.command_words.specs.Forms.{words_in};
ghost use Rattle.rdf_system.specs.Place.{IsFull};
ghost use Rattle.rdf_run.specs.Calls.{Obeys, IsComplete};

use crate::making::make;
use crate::predicting::predict_plan;
use crate::racks::Ended;
use crate::running::run_plan;
use crate::status::Status;
use command_words::{Words, WordsFault, read_words};
use rdf_disk::Disk;
use rdf_ports::{Gate, Sink, Source};
use rdf_system::Racks;
use std::alloc::Global;
use std::sync::Wait;
use std::thread::Threads;

/// Does what the words ask for: performs the plan that the source has over the racks, and writes each reply to the sink when its step is durable; or predicts the replies; or performs a
/// generated plan, and writes its summary. The words are those of the command line behind the program's name.
/// A takeover works the volumes of its backup in threads of the runtime, and waits for these.
pub fn run_rdf<R: Threads + Wait + Sync, S: Source, K: Sink, D: Disk + Drop + Send, G: Gate + Sync>(
    rt: &R,
    alloc: Global,
    words: &[String],
    plan: &mut S,
    out: &mut K,
    racks: Racks<D>,
    gate: &G,
) -> Ended<D>
    requires full { IsFull racks }
    ensures obeys { Obeys S.tells S.left S.faults K.tells K.written K.faults D.tells D.files D.counts
        (words_in (map string_bytes words.now)) result.status plan.old plan.new out.old out.new racks result.racks }
    ensures complete { IsComplete S.tells S.left S.faults K.faults D.tells D.files D.counts
        (words_in (map string_bytes words.now)) result.status plan.old plan.new out.old out.new racks result.racks }
{
    obey(rt, alloc, gate, words, plan, out, racks)
}

/// Does what the words ask for.
fn obey<R: Threads + Wait + Sync, S: Source, K: Sink, D: Disk + Drop + Send, G: Gate + Sync>(
    rt: &R,
    alloc: Global,
    gate: &G,
    words: &[String],
    plan: &mut S,
    out: &mut K,
    racks: Racks<D>,
) -> Ended<D>
    requires full { IsFull racks }
    ensures { Obeys S.tells S.left S.faults K.tells K.written K.faults D.tells D.files D.counts
        (words_in (map string_bytes words.now)) result.status plan.old plan.new out.old out.new racks result.racks }
{
    match read_words(alloc, words) {
        Ok(Words::Run) => run_plan(rt, alloc, plan, out, racks, gate),
        Ok(Words::RunDir { .. }) => run_plan(rt, alloc, plan, out, racks, gate),
        Ok(Words::Predict) => Ended {
            status: predict_plan(alloc, plan, out),
            racks,
        },
        Ok(Words::Make { seed, txns }) => make(rt, alloc, seed, txns, out, racks, gate),
        Err(WordsFault::BadWords) => Ended {
            status: Status::BadWords,
            racks,
        },
        Err(WordsFault::NoMemory) => Ended {
            status: Status::NoMemory,
            racks,
        },
    }
}

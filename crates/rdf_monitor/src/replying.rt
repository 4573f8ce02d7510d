//! Writing the replies to a plan's lines.
ghost use Rattle.std.specs.Prelude.{◌≡◌, ◌≢◌, ◌≤◌, ◌+◌, ◌∷◌, ◌++◌, [], ℕ, length, Err, OnOk};
ghost use Rattle.arrayvec.specs.ArrayVec.{array_vec_len};
ghost use Rattle.rdf_core.specs.Text.{text};
ghost use Rattle.rdf_core.specs.declared.replies.Reply.TheVariants as replies;
ghost use Rattle.rdf_monitor.specs.declared.fault.AnswerFault.TheVariants.{Write, NoMemory};
ghost use Rattle.rdf_monitor.specs.Faults.{CountsAnswer};
ghost use Rattle.rdf_monitor.specs.Written.{Wrote, WrotePart};

use crate::fault::AnswerFault;
use crate::texts::text_of;
use arrayvec::ArrayVec;
use itoa::Buffer;
use rdf_core::replies::Reply;
use rdf_ports::{Sink, write_all};
use std::alloc::Global;

/// The longest text of a number: `ok`, a space, 20 digits and the byte that ends the line.
const LONGEST: usize = 24;

/// Adds bytes to a line that has room for them.
fn add(line: &mut ArrayVec<u8, LONGEST>, bytes: &[u8])
    requires room { array_vec_len line.old + length bytes.now ≤ 24 }
    ensures items { line.new.items ≡ line.old.items ++ bytes.now }
    ensures len { array_vec_len line.new ≡ array_vec_len line.old + length bytes.now }
{
    match line.try_extend_from_slice(bytes) {
        Ok(()) => {}
        Err(_) => unreachable!(),
    }
}

/// The text of a number.
fn number_line(n: u64) -> ArrayVec<u8, LONGEST>
    ensures { result.items ≡ text (replies.Number n) }
{
    let mut digits = Buffer::new();
    let mut line = ArrayVec::new();
    add(&mut line, b"ok ");
    add(&mut line, digits.format(n).as_bytes());
    add(&mut line, b"\n");
    line
}

/// Writes a reply. That a line is done, and a number, are written with no memory, so that a fuse that was given and a
/// shipment that was stored are answered.
pub fn reply_to<K: Sink>(alloc: Global, out: &mut K, reply: &Reply) -> Result<(), AnswerFault>
    ensures ok { K.tells → OnOk result (Wrote (reply.now ∷ []) (K.written out.old) (K.written out.new)) }
    ensures part { K.tells → result ≡ Err AnswerFault.Write → WrotePart [] reply.now (K.written out.old) (K.written out.new) }
    ensures unwritten { result ≡ Err AnswerFault.NoMemory → out.new ≡ out.old }
    ensures done { result ≡ Err AnswerFault.NoMemory → reply.now ≢ replies.Done }
    ensures number { (n : ℕ) → result ≡ Err AnswerFault.NoMemory → reply.now ≢ replies.Number n }
    ensures sink { CountsAnswer result (K.faults out.old) (K.faults out.new) }
{
    match reply {
        Reply::Done => write_all(out, b"ok\n")?,
        Reply::Number { n } => write_all(out, &number_line(*n))?,
        _ => {
            let mut text = Vec::new(alloc);
            text_of(reply, &mut text)?;
            write_all(out, &text)?;
        }
    }
    Ok(())
}

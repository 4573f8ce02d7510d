//! Writing bytes, numbers behind a kind, texts, and values behind a tag.
ghost use Rattle.std.specs.Prelude.{◌≡◌, ◌<◌, ◌∷◌, [], ◌++◌, length, take, vec_len, OnOk, OnErr};
ghost use Rattle.std.specs.Int.{w16, w32, w64, to_be_bytes};
ghost use Rattle.rdf_codec.specs.Spelling.{text, optional};

use rdf_types::names::Value;
use rdf_types::records::Pos;
use std::alloc::AllocError;

/// Appends one byte. An `Err` leaves `out` as it was.
pub fn put_byte(byte: u8, out: &mut Vec<u8>) -> Result<(), AllocError>
    ensures ok { OnOk result (out.new.items ≡ out.old.items ++ byte ∷ []) }
    ensures err { OnErr result (out.new.items ≡ out.old.items) }
{
    out.push(byte)?;
    Ok(())
}

/// Appends the bytes. An `Err` leaves `out` as it was.
pub fn put_bytes(bytes: &[u8], out: &mut Vec<u8>) -> Result<(), AllocError>
    ensures ok { OnOk result (out.new.items ≡ out.old.items ++ bytes.now) }
    ensures err { OnErr result (out.new.items ≡ out.old.items) }
{
    out.extend_from_slice(bytes)
}

/// Appends a kind and two bytes of a count.
pub fn put_count(kind: u8, count: u16, out: &mut Vec<u8>) -> Result<(), AllocError>
    ensures ok { OnOk result (out.new.items ≡ out.old.items ++ kind ∷ to_be_bytes w16 count) }
    ensures kept { take (vec_len out.old) out.new.items ≡ out.old.items }
{
    put_byte(kind, out)?;
    put_bytes(&count.to_be_bytes(), out)
}

/// Appends a kind and four bytes of a transaction's number.
pub fn put_txn(kind: u8, txn: u32, out: &mut Vec<u8>) -> Result<(), AllocError>
    ensures ok { OnOk result (out.new.items ≡ out.old.items ++ kind ∷ to_be_bytes w32 txn) }
    ensures kept { take (vec_len out.old) out.new.items ≡ out.old.items }
{
    put_byte(kind, out)?;
    put_bytes(&txn.to_be_bytes(), out)
}

/// Appends a kind and eight bytes of a position.
pub fn put_position(kind: u8, pos: Pos, out: &mut Vec<u8>) -> Result<(), AllocError>
    ensures ok { OnOk result (out.new.items ≡ out.old.items ++ kind ∷ to_be_bytes w64 pos) }
    ensures kept { take (vec_len out.old) out.new.items ≡ out.old.items }
{
    put_byte(kind, out)?;
    put_bytes(&pos.to_be_bytes(), out)
}

/// Appends a byte of length and the bytes. An `Err` leaves `out` as it was.
pub fn put_text(bytes: &[u8], out: &mut Vec<u8>) -> Result<(), AllocError>
    requires { length bytes.now < 256 }
    ensures ok { OnOk result (out.new.items ≡ out.old.items ++ text bytes.now) }
    ensures err { OnErr result (out.new.items ≡ out.old.items) }
{
    let start = out.len();
    put_byte(bytes.len() as u8, out)?;
    let written = put_bytes(bytes, out);
    if written.is_err() {
        out.truncate(start);
    }
    written
}

/// Appends 0, or 1 and the value. An `Err` leaves `out` as it was.
pub fn put_optional(value: &Option<Value>, out: &mut Vec<u8>) -> Result<(), AllocError>
    ensures ok { OnOk result (out.new.items ≡ out.old.items ++ optional value.now) }
    ensures err { OnErr result (out.new.items ≡ out.old.items) }
{
    let Some(value) = value else {
        put_byte(0, out)?;
        return Ok(());
    };
    let start = out.len();
    put_byte(1, out)?;
    let written = put_text(value.bytes(), out);
    if written.is_err() {
        out.truncate(start);
    }
    written
}

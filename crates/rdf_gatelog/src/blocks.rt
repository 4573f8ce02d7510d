//! The blocks of a log, as bytes.
ghost use Rattle.std.specs.Prelude.{◌≡◌, ◌≤◌, ◌<◌, ◌++◌, ◌∷◌, [], ℕ, List, length, Err, OnOk, IfOk, IfErr, IfSome, IfNone};
ghost use Rattle.std.specs.List.{AllByRecursion};
ghost use Rattle.rdf_disk.specs.Counts.Ending.{Fine};
ghost use Rattle.rdf_gatelog.specs.Log.{IsPayload, IsBroken, framed, open_blocks, payloads_of};
ghost use Rattle.rdf_gatelog.specs.LogCauses.{ending};
ghost use Rattle.rdf_gatelog.specs.Parsed.{IsParsed, ParseFails, lists_of};

use crate::fault::LogFault;
use std::alloc::{AllocError, AllocFailed, Global};

/// Why bytes are no log.
#[derive(Clone, Copy, Debug, PartialEq, Eq)]
pub enum ParseFault {
    NoMemory,
    Broken(usize),
}

impl From<AllocError> for ParseFault {
    ghost use Rattle.rdf_gatelog.specs.declared.blocks.ParseFault.TheVariants.{NoMemory};

    ghost from_gives = { λ _ e. e ≡ NoMemory };

    fn from(_: AllocError) -> Self {
        ParseFault::NoMemory
    }
}

impl<T: Drop> From<AllocFailed<T>> for ParseFault {
    ghost use Rattle.rdf_gatelog.specs.declared.blocks.ParseFault.TheVariants.{NoMemory};

    ghost from_gives = { λ _ e. e ≡ NoMemory };

    fn from(_: AllocFailed<T>) -> Self {
        ParseFault::NoMemory
    }
}

/// What is written behind a gate: the payload's length, the payload, and the gate of the next block.
pub fn block_before(alloc: Global, payload: &[u8], gate: u8) -> Result<Vec<u8>, AllocError>
    requires { IsPayload payload.now }
    ensures { IfOk result (λ block. block.items ≡ framed payload.now ++ gate ∷ []) }
{
    let len = payload.len() as u32;
    let mut block = Vec::with_capacity(alloc, payload.len() + 5)?;
    block.extend_from_slice(&len.to_be_bytes())?;
    block.extend_from_slice(payload)?;
    block.push(gate)?;
    Ok(block)
}

/// What an append writes behind the gate: the payload's length, the payload, and a closed gate for the next block.
pub fn block_of(alloc: Global, payload: &[u8]) -> Result<Vec<u8>, AllocError>
    requires { IsPayload payload.now }
    ensures { IfOk result (λ block. block.items ≡ framed payload.now ++ 0 ∷ []) }
{
    block_before(alloc, payload, 0)
}

/// Appends one block with an open gate.
fn push_open(bytes: &mut Vec<u8>, payload: &[u8]) -> Result<(), AllocError>
    requires { IsPayload payload.now }
    ensures { OnOk result (bytes.new.items ≡ bytes.old.items ++ (1 ∷ framed payload.now)) }
{
    let len = payload.len() as u32;
    bytes.push(1)?;
    bytes.extend_from_slice(&len.to_be_bytes())?;
    bytes.extend_from_slice(payload)
}

/// Blocks with open gates, and a closed gate behind the last one.
pub fn open_blocks_of(alloc: Global, payloads: &[Vec<u8>]) -> Result<Vec<u8>, AllocError>
    requires { AllByRecursion IsPayload (lists_of payloads.now) }
    ensures { IfOk result (λ bytes. bytes.items ≡ open_blocks (lists_of payloads.now) ++ 0 ∷ []) }
{
    let mut bytes = Vec::new(alloc);
    for payload in payloads {
        push_open(&mut bytes, payload)?;
    }
    bytes.push(0)?;
    Ok(bytes)
}

/// The payload behind an open gate, and what follows it, which has the next gate.
pub fn first_block(bytes: &[u8]) -> Option<(&[u8], &[u8])>
    ensures some { IfSome result (λ found. IsPayload found.0.now) }
    ensures split { IfSome result (λ found. bytes.now ≡ framed found.0.now ++ found.1.now) }
    ensures gate { IfSome result (λ found. 1 ≤ length found.1.now) }
    ensures none { IfNone result ((payload rest : List ℕ) → IsPayload payload → bytes.now ≡ framed payload ++ rest → 1 ≤ length rest → ⊥) }
{
    if bytes.len() < 4 {
        return None;
    }
    let (head, tail) = bytes.split_at(4);
    let len = u32::from_be_bytes([head[0], head[1], head[2], head[3]]) as usize;
    if len == 0 || len > 65536 || tail.len() <= len {
        return None;
    }
    Some(tail.split_at(len))
}

/// The payloads of the blocks with open gates, and the place of the gate behind them.
pub fn parse(alloc: Global, bytes: &[u8]) -> Result<(Vec<Vec<u8>>, usize), ParseFault>
    requires { 2 ≤ length bytes.now }
    ensures ok { IfOk result (λ found. IsParsed bytes.now (payloads_of found.0) found.1) }
    ensures err { IfErr result (λ e. ParseFails bytes.now e) }
{
    let mut payloads = Vec::new(alloc);
    let mut rest = bytes;
    let mut at = 0;
    while let [1, after @ ..] = rest {
        match first_block(after) {
            None => return Err(ParseFault::Broken(at)),
            Some((payload, behind)) => {
                payloads.push(payload.to_vec(alloc)?)?;
                at += 5 + payload.len();
                rest = behind;
            }
        }
    }
    Ok((payloads, at))
}

/// The payloads of a log's bytes, and where its blocks end. Fewer than two bytes come only of a disk that read fewer than it told.
pub fn blocks_of(alloc: Global, bytes: &[u8], file: u32) -> Result<(Vec<Vec<u8>>, u64), LogFault>
    ensures ok { 2 ≤ length bytes.now → IfOk result (λ found. IsParsed bytes.now (payloads_of found.0) found.1) }
    ensures end { IfOk result (λ found. found.1 ≡ length (open_blocks (payloads_of found.0))) }
    ensures damaged { 2 ≤ length bytes.now → (f at : ℕ) → result ≡ Err (LogFault.Damaged f at) → (f ≡ file) × IsBroken bytes.now at }
    ensures fine { ending result ≡ Fine }
{
    if bytes.len() < 2 {
        return Err(LogFault::Damaged { file, at: 0 });
    }
    match parse(alloc, bytes) {
        Ok((payloads, end)) => Ok((payloads, end as u64)),
        Err(ParseFault::NoMemory) => Err(LogFault::NoMemory),
        Err(ParseFault::Broken(at)) => Err(LogFault::Damaged {
            file,
            at: at as u64,
        }),
    }
}

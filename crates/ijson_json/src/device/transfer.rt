//! Reads a source to its end, and writes a whole text to a sink.
ghost use Rattle.std.specs.Prelude.{◌≡◌, ◌+◌, ◌^◌, ◌<◌, ◌≤◌, take, drop, IfOk, OnOk, OnErr, Err};
ghost use Rattle.std.specs.Io.KnownBytes.{Appends, Consumes, IsAtEnd};
ghost use Rattle.std.specs.Vec.{vec_len};
ghost use Rattle.ijson_json.specs.WritesBeginning.{WritesBeginning};
ghost use Rattle.ijson_json.specs.declared.device.transfer.ReadFault.TheVariants.{Device, Memory};

use crate::device::{DeviceFault, Sink, Source};
use std::alloc::{AllocError, Global};

/// The number of bytes by which a full buffer is extended.
const PIECE: usize = 65_536;

/// Why a source was not read to its end.
#[derive(Debug, Drop)]
pub(crate) enum ReadFault {
    Device,
    Memory,
}

impl From<DeviceFault> for ReadFault {
    ghost from_gives = { λ _ fault. fault ≡ Device };

    fn from(_fault: DeviceFault) -> ReadFault {
        ReadFault::Device
    }
}

impl From<AllocError> for ReadFault {
    ghost from_gives = { λ _ fault. fault ≡ Memory };

    fn from(_refused: AllocError) -> ReadFault {
        ReadFault::Memory
    }
}

/// Reads the rest of `input`, and returns its bytes.
#[tactic(auto, using(crate::proofs::devices::TransferredBytes::consumes_piece))]
pub(crate) fn read_all<R: Source>(alloc: Global, input: &mut R) -> Result<Vec<u8>, ReadFault>
    requires { R.failed input.old + 1 < 2 ^ 64 }
    ensures bytes { IfOk result (λ v. Consumes (R.left input.old) (R.left input.new) v.items) }
    ensures end { OnOk result (IsAtEnd (R.left input.new)) }
    ensures count { OnOk result (R.failed input.new ≡ R.failed input.old) }
    ensures device { result ≡ Err Device → R.failed input.new ≡ R.failed input.old + 1 }
    ensures memory { result ≡ Err Memory → R.failed input.new ≡ R.failed input.old }
{
    let mut bytes = Vec::new(alloc);
    let mut filled = 0;
    for _ in 0..u64::MAX {
        let count = read_piece(input, &mut bytes, filled)?;
        if count == 0 {
            bytes.truncate(filled);
            return Ok(bytes);
        }
        filled += count;
    }
    // Each iteration adds at least one byte, and a list has fewer than `u64::MAX` bytes.
    unreachable!()
}

/// Reads the next bytes into `bytes` from index `filled` on, and returns their number.
///
/// If `filled` is the length of `bytes`, extends `bytes` first.
fn read_piece<R: Source>(
    input: &mut R,
    bytes: &mut Vec<u8>,
    filled: usize,
) -> Result<usize, ReadFault>
    requires steady { R.failed input.old + 1 < 2 ^ 64 }
    requires within { filled ≤ vec_len bytes.old }
    ensures kept { take filled bytes.new.items ≡ take filled bytes.old.items }
    ensures within { IfOk result (λ n. filled + n ≤ vec_len bytes.new) }
    ensures piece { IfOk result (λ n.
        Consumes (R.left input.old) (R.left input.new) (take n (drop filled bytes.new.items))) }
    ensures end { IfOk result (λ n. n ≡ 0 → IsAtEnd (R.left input.new)) }
    ensures count { OnOk result (R.failed input.new ≡ R.failed input.old) }
    ensures device { result ≡ Err Device → R.failed input.new ≡ R.failed input.old + 1 }
    ensures memory { result ≡ Err Memory → R.failed input.new ≡ R.failed input.old }
{
    if filled == bytes.len() {
        make_room(bytes)?;
    }
    let count = input.read(&mut bytes[filled..])?;
    Ok(count)
}

/// Appends `PIECE` zeros to the list.
///
/// If the capacity is full, it doubles. Memory after the zeros is not written.
fn make_room(bytes: &mut Vec<u8>) -> Result<(), AllocError>
    ensures kept { take (vec_len bytes.old) bytes.new.items ≡ bytes.old.items }
    ensures longer { OnOk result (vec_len bytes.old < vec_len bytes.new) }
{
    let Some(len) = bytes.len().checked_add(PIECE) else {
        return Err(AllocError);
    };
    bytes.resize(len, 0)
}

/// Writes all of `text` to `output`.
pub(crate) fn write_all<W: Sink>(output: &mut W, text: &[u8]) -> Result<(), DeviceFault>
    requires { W.failed output.old + 1 < 2 ^ 64 }
    ensures count { OnOk result (W.failed output.new ≡ W.failed output.old) }
    ensures bytes { OnOk result (Appends (W.got output.old) (W.got output.new) text.now) }
    ensures fault { OnErr result (W.failed output.new ≡ W.failed output.old + 1) }
    ensures beginning { OnErr result
        (WritesBeginning (W.got output.old) (W.got output.new) text.now) }
{
    let mut at = 0;
    while at < text.len() {
        at += output.write(&text[at..])?;
    }
    Ok(())
}

//! The whole input in memory, up to a limit.

ghost use Rattle.std.specs.Prelude.{◌≡◌, ◌+◌, ◌^◌, ◌≤◌, ◌<◌, [], ℕ, Some, IfOk, IfErr, IfSome, OnOk, take, drop, vec_len};
ghost use Rattle.bridge_outside.specs.Outside.{Reads, Rose, left_after};
ghost use Rattle.bridge_outside.specs.Whole.{HasReadCause, IsReadAnswer};

use crate::source::{Failed, Source};
use std::alloc::{AllocError, Global};

// The most bytes that are read.
const MOST: usize = 1 << 26;

// The first length of the buffer. It doubles from there.
const FIRST: usize = 1 << 16;

/// Why the input was not read.
#[derive(Clone, Copy, Debug, PartialEq, Eq)]
pub enum ReadFault {
    /// A read failed.
    Failed,
    /// The source gave more than 2^26 bytes.
    TooLong,
    /// Want of memory.
    NoMemory,
}

impl From<AllocError> for ReadFault {
    ghost use Rattle.bridge_outside.specs.declared.bytes.ReadFault.TheVariants.{NoMemory};

    ghost from_gives = { λ _ fault. fault ≡ NoMemory };

    fn from(_: AllocError) -> Self {
        ReadFault::NoMemory
    }
}

// One read into the buffer behind its first `len` bytes.
fn read_behind<S: Source>(source: &mut S, bytes: &mut Vec<u8>, len: usize) -> Result<usize, Failed>
    requires { len ≤ vec_len bytes.old }
    ensures reads { Reads (S.state source.old) (S.state source.new)
        (drop len bytes.old.items) (drop len bytes.new.items) result }
    ensures front { take len bytes.new.items ≡ take len bytes.old.items }
    ensures len { vec_len bytes.new ≡ vec_len bytes.old }
{
    source.read(&mut bytes[len..])
}

// Makes room behind the first `len` bytes.
fn make_room(bytes: &mut Vec<u8>, len: usize) -> Result<(), AllocError>
    requires within { len ≤ vec_len bytes.old }
    requires short { len ≤ 2 ^ 26 }
    requires size { vec_len bytes.old ≤ 2 ^ 26 + 1 }
    ensures room { OnOk result (len < vec_len bytes.new) }
    ensures size { OnOk result (vec_len bytes.new ≤ 2 ^ 26 + 1) }
    ensures front { take len bytes.new.items ≡ take len bytes.old.items }
{
    if len == bytes.len() {
        bytes.resize((2 * len).max(FIRST).min(MOST + 1), 0)?;
    }
    Ok(())
}

/// All the bytes that the source has left. `Failed` where a read failed, `TooLong` where the source
/// gives more than 2^26 bytes, `NoMemory` for want of memory. It makes at most 2^26 + 1 reads.
pub fn read_all<S: Source>(alloc: Global, source: &mut S) -> Result<Vec<u8>, ReadFault>
    ensures whole { IfOk result (λ bytes.
        IfSome (S.state source.old).left (λ all. bytes.items ≡ all)) }
    ensures at_end { OnOk result (IfSome (S.state source.old).left
        (λ _. (S.state source.new).left ≡ Some [])) }
    ensures short { IfOk result (λ bytes. vec_len bytes ≤ 2 ^ 26) }
    ensures steady { OnOk result ((S.state source.new).faults ≡ (S.state source.old).faults) }
    ensures cause { IfErr result (λ fault.
        HasReadCause fault (S.state source.old) (S.state source.new)) }
    // Where no count of faults can have risen, the length alone decides, up to want of memory.
    ensures exact { IfSome (S.state source.old).left (λ all.
        ¬ Rose (S.state source.old).faults (S.state source.new).faults
        → IsReadAnswer all result) }
    ensures rest { (n : ℕ)
        × ((S.state source.new).left ≡ left_after n (S.state source.old).left) }
    ensures never_falls { (S.state source.old).faults ≤ (S.state source.new).faults }
    ensures few_reads { (S.state source.new).calls ≤ (S.state source.old).calls + (2 ^ 26 + 1) }
{
    let mut bytes = Vec::new(alloc);
    let mut len = 0;
    while len <= MOST {
        make_room(&mut bytes, len)?;
        match read_behind(source, &mut bytes, len) {
            Ok(0) => {
                bytes.truncate(len);
                return Ok(bytes);
            }
            Ok(n) => len += n,
            Err(Failed) => return Err(ReadFault::Failed),
        }
    }
    Err(ReadFault::TooLong)
}

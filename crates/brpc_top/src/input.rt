ghost use Rattle.std.specs.Prelude.{◌≡◌, ◌<◌, ◌≤◌, IfOk, length, vec_len};
ghost use Rattle.brpc_top.specs.Answers.{HasReadCause, IsRead, ReadsMore};
ghost use Rattle.brpc_top.specs.declared.input.ReadStop.TheVariants as stop;

use rpc_base::{Failed, Source};
use rpc_model::SCRIPT_LIMIT;
use std::alloc::{AllocError, Global};

/// How many bytes one read asks for.
const PIECE: usize = 65_536;

/// Why a source was not read to its end.
#[derive(Debug, Drop)]
pub(crate) enum ReadStop {
    Fault,
    Memory,
}

impl From<AllocError> for ReadStop {
    ghost from_gives = { λ _ e. e ≡ stop.Memory };

    fn from(_error: AllocError) -> ReadStop {
        ReadStop::Memory
    }
}

impl From<Failed> for ReadStop {
    ghost from_gives = { λ _ e. e ≡ stop.Fault };

    fn from(_error: Failed) -> ReadStop {
        ReadStop::Fault
    }
}

/// All bytes of the source, or one more than a script may have.
pub(crate) fn read_script_bytes<S: Source>(
    alloc: Global,
    source: &mut S,
) -> Result<Vec<u8>, ReadStop>
    ensures read { IfOk result (λ bytes. IsRead (S.left source.old) (S.left source.new) bytes.items) }
    ensures cause { HasReadCause (S.faults source.old) (S.faults source.new) result }
{
    let mut bytes = Vec::new(alloc);
    let mut piece = zeros(alloc, PIECE)?;
    while bytes.len() <= SCRIPT_LIMIT {
        let room = PIECE.min(SCRIPT_LIMIT + 1 - bytes.len());
        if read_more(source, &mut piece[..room], &mut bytes)? == 0 {
            break;
        }
    }
    Ok(bytes)
}

/// Reads once, and answers how many bytes came. They stand last in `bytes`.
fn read_more<S: Source>(
    source: &mut S,
    piece: &mut [u8],
    bytes: &mut Vec<u8>,
) -> Result<usize, ReadStop>
    requires { 0 < length piece.old }
    ensures read { IfOk result (ReadsMore (S.left source.old) (S.left source.new) bytes.old.items bytes.new.items) }
    ensures bound { IfOk result (λ count. count ≤ length piece.old) }
    ensures cause { HasReadCause (S.faults source.old) (S.faults source.new) result }
{
    let count = source.read(piece)?;
    bytes.extend_from_slice(&piece[..count])?;
    Ok(count)
}

/// So many zero bytes.
fn zeros(alloc: Global, count: usize) -> Result<Vec<u8>, AllocError>
    ensures { IfOk result (λ bytes. vec_len bytes ≡ count) }
{
    vec![in alloc; 0u8; count]
}

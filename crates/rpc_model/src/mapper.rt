use crate::kinds::MapKind;
use rpc_base::{Bytes, NoMemory};
use std::alloc::Global;

/// A mapper's answer for one sub channel.
#[derive(Debug, Drop, PartialEq, Eq)]
pub enum Mapped {
    /// The sub is asked with this request.
    Send(Bytes),
    /// The sub isn't asked.
    Skip,
    /// The whole parallel call is refused.
    Bad,
}

/// Makes the request of a sub channel from the request of its parallel call: brpc's `CallMapper`.
pub trait Mapper {
    ghost use Rattle.std.specs.Prelude.{◌≡◌, ℕ, List, IfOk};
    ghost use Rattle.rpc_model.specs.declared.mapper.Mapped.{Mapped};

    /// What it answers, as a function of the sub's index, the number of subs and the request.
    ghost answer: { Self → ℕ → ℕ → List ℕ → Mapped };

    /// What it asks of the sub of this index, among so many.
    fn map(&self, alloc: Global, index: u32, count: u32, request: &[u8]) -> Result<Mapped, NoMemory>
        ensures answer { IfOk result (λ mapped. mapped ≡ answer self.now index count request.now) };
}

impl Mapper for MapKind {
    ghost use Rattle.rpc_model.specs.Kinds.{map_answer};

    ghost answer = { map_answer };

    fn map(
        &self,
        alloc: Global,
        index: u32,
        _count: u32,
        request: &[u8],
    ) -> Result<Mapped, NoMemory> {
        match self {
            MapKind::Same => Ok(Mapped::Send(copied(alloc, request)?)),
            MapKind::Index => Ok(Mapped::Send(indexed(alloc, request, index)?)),
            MapKind::Split => split(alloc, request, index),
            MapKind::Skip => Ok(Mapped::Skip),
            MapKind::Bad => Ok(Mapped::Bad),
        }
    }
}

ghost use Rattle.std.specs.Prelude.{◌≡◌, ◌++◌, IfOk, slice_get};
ghost use Rattle.std.specs.Fmt.{decimal};
ghost use Rattle.rpc_model.specs.Kinds.{send_part, pieces};

fn copied(alloc: Global, bytes: &[u8]) -> Result<Bytes, NoMemory>
    ensures { IfOk result (λ copy. copy ≡ bytes.now) }
{
    let mut copy = Vec::new(alloc);
    copy.extend_from_slice(bytes)?;
    Ok(Bytes::of(copy))
}

/// The request followed by the index.
fn indexed(alloc: Global, request: &[u8], index: u32) -> Result<Bytes, NoMemory>
    ensures { IfOk result (λ bytes. bytes ≡ request.now ++ decimal index) }
{
    let number = format!(in alloc; "{index}")?;
    let mut bytes = Vec::new(alloc);
    bytes.extend_from_slice(request)?;
    bytes.extend_from_slice(number.as_bytes())?;
    Ok(Bytes::of(bytes))
}

/// The piece of this index between the commas of the request, or a skip where there are fewer.
fn split(alloc: Global, request: &[u8], index: u32) -> Result<Mapped, NoMemory>
    ensures { IfOk result (λ mapped. mapped ≡ send_part (slice_get (pieces request.now) index)) }
{
    match request.split(|b| *b == b',').nth(index as usize) {
        None => Ok(Mapped::Skip),
        Some(piece) => Ok(Mapped::Send(copied(alloc, piece)?)),
    }
}

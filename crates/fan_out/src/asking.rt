ghost use Rattle.std.specs.Prelude.{◌≡◌, ◌^◌, ◌<◌, IfOk, length};
ghost use Rattle.rpc_model.specs.Parallel as spec;

use rpc_base::NoMemory;
use rpc_model::{Mapped, Mapper};
use std::alloc::Global;

/// What the mappers of a parallel call ask of its subs, by rising index.
pub fn ask_all<M: Mapper>(
    alloc: Global,
    maps: &[M],
    request: &[u8],
) -> Result<Vec<Mapped>, NoMemory>
    requires few { length maps.now < 2 ^ 31 }
    ensures asked { IfOk result (λ asked. asked.items ≡ spec.mapped M.answer maps.now request.now) }
{
    let count = maps.len() as u32;
    let mut asked = Vec::new(alloc);
    let mut index = 0;
    for map in maps {
        asked.push(map.map(alloc, index, count, request)?)?;
        index += 1;
    }
    Ok(asked)
}

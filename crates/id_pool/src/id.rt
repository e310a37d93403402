ghost use Rattle.std.specs.Prelude.{◌≡◌, ◌+◌, ◌*◌, ◌-◌, ◌^◌, ◌<◌, Some};
ghost use Rattle.id_pool.specs.Ids as ids;

/// The id of a version of a slot: the slot plus one in the high 32 bits and the version in the low 32.
pub fn make_id(slot: u32, version: u32) -> u64
    requires { slot < 2 ^ 32 - 1 }
    ensures value { result ≡ ids.make_id slot version }
    ensures not_zero { 0 < result }
    ensures slot { ids.slot_of result ≡ Some slot }
    ensures version { ids.version_of result ≡ version }
{
    ((slot as u64 + 1) << 32) + version as u64
}

/// The slot that an id names. `None` where the high half is 0, which no id has.
pub fn slot_of(id: u64) -> Option<u32>
    ensures { result ≡ ids.slot_of id }
{
    ((id >> 32) as u32).checked_sub(1)
}

/// The version that an id names.
pub fn version_of(id: u64) -> u32
    ensures { result ≡ ids.version_of id }
{
    (id & 0xffff_ffff) as u32
}

ghost use Rattle.std.specs.Prelude.{◌≡◌, ◌≢◌, ℕ, List};
ghost use Rattle.rpc_meta.specs.Meta.{meta, meta_bytes};
ghost use Rattle.rpc_meta.specs.Meta.Spelling.{IsWritable, IsSized};
ghost use Rattle.rpc_meta.specs.declared.fault.MetaFault.TheVariants.{Memory};
ghost use Rattle.rpc_meta.specs.declared.meta.Meta.{Meta};

/// A law of the meta grammar: the spelling of a meta is read as that meta. Its names are UTF-8, its attachment size isn't
/// negative, its numbers are of their types and its texts have fewer than 2^32 bytes.
pub fn reads_its_spelling()
    ensures { (m : Meta) → IsWritable m → IsSized m → meta (meta_bytes m) ≡ Ok m }
{}

/// A law of the meta grammar: want of memory is none of its faults. So where `read_meta` answers another fault, it is the
/// grammar's.
pub fn names_no_memory()
    ensures { (bytes : List ℕ) → meta bytes ≢ Err Memory }
{}

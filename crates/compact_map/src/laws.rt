ghost use Rattle.compact_map.specs.Hash.{WorkedHash};

// The worked value of the hash holds where this is proved; there is nothing to compute.
pub fn worked_hash()
    ensures { WorkedHash }
{}

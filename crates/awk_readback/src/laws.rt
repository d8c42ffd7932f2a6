//! A law over the definitions.
ghost use Rattle.awk_readback.specs.ReadBack.{PackedReadsBack, PackedIsLawful, PackedIsHeld};

/// Every container that holds the buffers of a packed array is valid for its form and length, and
/// denotes the type and the values that were packed; so packing that again gives the same.
/// The form is lawful, and there is such a container.
#[tactic(auto, using(crate::proofs::ReadBack::packed_reads_back, crate::proofs::ReadBack::packed_is_lawful))]
pub fn packed_reads_back()
    ensures reads_back { PackedReadsBack }
    ensures lawful { PackedIsLawful }
    ensures held { PackedIsHeld }
{}

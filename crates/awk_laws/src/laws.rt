//! Laws of lists, of picks, of nulls, of ranges and of fields.
ghost use Rattle.awk_laws.specs.Concatenation.{ConcatenationLaws};
ghost use Rattle.awk_laws.specs.Flattening.{FlatteningLaws};
ghost use Rattle.awk_laws.specs.Nulls.{NullLaws};
ghost use Rattle.awk_laws.specs.Picking.{PickingLaws};
ghost use Rattle.awk_laws.specs.Viewing.{ViewLaws};

/// What is cut by counts is joined again, and what is joined is cut again by its lengths.
pub fn flattening()
    ensures laws { FlatteningLaws }
{}

/// Arrays joined have the items of their parts, each part in its places.
pub fn concatenation()
    ensures laws { ConcatenationLaws }
{}

/// Picks by places, by masks, and of what was picked.
pub fn picking()
    ensures laws { PickingLaws }
{}

/// Nulls put in, taken out and filled.
pub fn nulls()
    ensures laws { NullLaws }
{}

/// Ranges of ranges, and fields that were put among others.
pub fn views()
    ensures laws { ViewLaws }
{}

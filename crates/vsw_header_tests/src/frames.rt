//! Frames that were read by hand.

ghost use Rattle.vsw_base.specs.Vectors.{ReadsPlain, ReadsEncapsulated, ReadsFaults, ReadsSix, ReadsSixFaults, SpellsSix};

/// The definitions of a frame and of addresses' texts say of these what was read of them by hand.
pub fn vectors()
    ensures plain { ReadsPlain }
    ensures encapsulated { ReadsEncapsulated }
    ensures faults { ReadsFaults }
    ensures six { ReadsSix }
    ensures six_faults { ReadsSixFaults }
    ensures six_texts { SpellsSix }
{}

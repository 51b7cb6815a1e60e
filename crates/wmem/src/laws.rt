//! What holds of all loads and stores. These functions do nothing: each promises a law of the
//! definitions by which the contracts of a memory's calls say what they do.
ghost use Rattle.wmem.specs.Laws.{StoresAreLoaded, WritesStayInPlace};

/// A load gives what a store of as many bytes wrote at its address.
pub fn stores_are_loaded()
    ensures { StoresAreLoaded }
{}

/// A write changes no other byte, nor the size.
pub fn writes_stay_in_place()
    ensures { WritesStayInPlace }
{}

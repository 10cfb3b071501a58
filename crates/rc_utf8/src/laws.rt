//! Law of byte programs: they have the walks of their programs. The function does nothing: its
//! contract is the law.
ghost use Rattle.rc_utf8.specs.Laws.{ByteProgramLaw};

/// A search over the byte program gives the answer of the search over the program, with the same
/// slots and the same greatest span, and spells the same spans. From each place of the program,
/// walks lead to the same match places at the same positions. No edge of a byte program reads more
/// than one byte, and no place of it reads scalars. If the program is closed, so is the byte
/// program, and if an engine may run over the first, it may run over the second. The byte program
/// has no more places than the program weighs; and that of some patterns no more than their weight.
pub fn bytes_have_the_same_walks()
    ensures { ByteProgramLaw }
{}

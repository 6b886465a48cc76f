//! How writing and reading fit together.

ghost use Rattle.roster_bundle.specs.Canonical.{Shown};
ghost use Rattle.roster_text.specs.ReadBack.{IsWritable, IsReadBack};

/// The tokens of a text that `write_solution` writes spell exactly one solution: it has the week, the
/// scenario's name and the assignments of the text, in canonical order. This holds if the text's names are
/// words, its week is at most 999 and its assignments are at most 99,999.
pub fn written_is_read()
    ensures { (s : Shown) → IsWritable s → IsReadBack s }
{}

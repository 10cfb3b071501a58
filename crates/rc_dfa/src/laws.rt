//! Laws of determinizers and of their runs. The functions do nothing: their contracts are the laws.
ghost use Rattle.rc_dfa.specs.Columns.{ColumnLaw};
ghost use Rattle.rc_dfa.specs.Laws.{MachineLaw, OverlapLaw, RunLaw, SymbolRunLaw};
ghost use Rattle.rc_dfa.specs.Tables.{TableLaw};

/// The states of a determinizer list places of its program, each once.
pub fn machines_keep_places()
    ensures { MachineLaw }
{}

/// Forwards, a DFA search finds where the first walk ends, or the last position at which a walk
/// ends; backwards, it finds the least position from which a walk leads to the end. It does so
/// whether it reads bytes or symbols, and stops at the first byte that may not be read.
pub fn runs_meet_walks()
    ensures { RunLaw }
{}

/// A search that reads symbols never stops, whatever bytes there are.
pub fn runs_read_symbols()
    ensures { SymbolRunLaw }
{}

/// The symbol of a byte tells a step what both sides of it tell. Past ASCII, bytes of one class lead
/// alike with each symbol, and what ends with the byte is left to one turn.
pub fn symbols_have_columns()
    ensures { ColumnLaw }
{}

/// A table needs one cell for a byte that may be read if it is known alone, whether it reads bytes
/// or symbols, and one for each symbol of any other byte.
pub fn tables_serve_alphabets()
    ensures { TableLaw }
{}

/// For `MatchKind::All`, each state of a DFA search tells to which places walks come.
pub fn runs_overlap()
    ensures { OverlapLaw }
{}

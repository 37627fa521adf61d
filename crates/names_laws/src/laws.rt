//! The laws, each as the contract of a function that does nothing.
ghost use Rattle.c_grammar.specs.File.{File};
ghost use Rattle.c_prog.specs.Lines.{IsLined};
ghost use Rattle.c_names.specs.Sources.{source_of};

/// The source that a file spells has exactly one line for each access and for each call of its
/// program, whatever the faults of the file.
pub fn each_access_and_call_has_a_line()
    ensures { (file : File) → IsLined (source_of file).tree (source_of file).lines }
{}

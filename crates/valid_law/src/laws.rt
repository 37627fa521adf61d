//! The law, as the contract of a function that does nothing.
ghost use Rattle.std.specs.Prelude.{◌≡◌, []};
ghost use Rattle.cfix_base.specs.declared.Spot.{Spot};
ghost use Rattle.c_grammar.specs.File.{File};
ghost use Rattle.c_prog.specs.Valid.{IsValid};
ghost use Rattle.c_names.specs.Files.{faults_of};
ghost use Rattle.c_grammar.specs.Parsed.{IsParsed};
ghost use Rattle.c_names.specs.Sources.{source_of};

/// The program that a file spells is valid, where the file is the one of a text that was read and
/// its names have no fault.
pub fn a_file_without_faults_spells_a_valid_program()
    ensures { (end : Spot) → (file : File) → IsParsed end file → faults_of end file ≡ [] → IsValid (source_of file).tree }
{}

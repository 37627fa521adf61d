ghost use Rattle.c_grammar.specs.File.{File};
ghost use Rattle.c_names.specs.Sources.{source_of};
ghost use Rattle.count_laws.specs.Counts.{AreCounts};

/// What the limits count in a file is what the program has that the file spells, whatever its faults.
pub fn the_counts_of_a_file_are_those_of_its_program()
    ensures { (file : File) → AreCounts file (source_of file).tree }
{}

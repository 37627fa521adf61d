//! The laws, each as the contract of a function that does nothing.
ghost use Rattle.std.specs.Prelude.{All};
ghost use Rattle.cfix_base.specs.declared.Spot.{Spot};
ghost use Rattle.c_grammar.specs.File.{File};
ghost use Rattle.c_names.specs.Files.{faults_of};
ghost use Rattle.fault_laws.specs.Places.{StandsAt};

/// Each fault of the names of a file stands at a token of the file or at the text's end.
pub fn each_fault_of_names_stands_at_a_token()
    ensures { (end : Spot) (file : File) → All (λ fault. StandsAt end file fault.spot) (faults_of end file) }
{}

// The files of two drafts, from the definitions.
ghost use Rattle.packed.specs.Example.{CounterFile, BuiltInFile};

// The demonstration drawing's and the built-in draft's.
pub fn demonstration_file_stands()
    ensures demonstration { CounterFile }
    ensures built_in { BuiltInFile }
{}

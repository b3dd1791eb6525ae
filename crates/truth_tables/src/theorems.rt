// Laws of truth tables, above their definitions.
ghost use Rattle.truth_tables.specs.Laws.{ShowsBit, ShowsLate, KnownTables};

pub fn laws_hold()
    ensures shows_bit { ShowsBit }
    ensures shows_late { ShowsLate }
    ensures known_tables { KnownTables }
{}

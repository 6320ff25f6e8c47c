// Laws of the names in a script. Each function does nothing, and its contract is the law.
ghost use Rattle.name_law.specs.Laws.{ScriptsNameApart};

/// In what is read as a script regions have lawful names that differ; so have colours, and clients.
pub fn scripts_name_apart()
    ensures { ScriptsNameApart }
{}

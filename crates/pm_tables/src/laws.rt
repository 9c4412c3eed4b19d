//! Laws of databases.
ghost use Rattle.pm_tables.specs.Laws.{EachTableByItself, CommitsAddTheirWeight};

/// The law that what a commit leaves under a name is what its changes of that name leave.
pub fn each_table_by_itself()
    ensures { EachTableByItself }
{}

/// The law that a database weighs at most as much more after a commit as the changes take in a log file.
pub fn commits_add_their_weight()
    ensures { CommitsAddTheirWeight }
{}

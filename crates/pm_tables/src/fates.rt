//! What becomes of each table by a commit.
ghost use Rattle.std.specs.Prelude.{◌≡◌, IfOk, OnOk};
ghost use Rattle.std.specs.FinMap as map;
ghost use Rattle.pm_tables.specs.{Tables.{TableMap, changed, committed}, Fates.{AreFates, IsFirst}};

use crate::change::TableChange;
use crate::commit::TableCommit;
use crate::fate::Fate;
use crate::tables::Tables;
use pm_rows::Commit as RowCommit;
use std::alloc::AllocError;
use std::collections::BTreeMap;

impl Tables {
    /// What becomes of each table that the commit names. It takes time of the order of the number of changes times the
    /// logarithm of those and of the tables.
    pub(crate) fn fates(&self, commit: &TableCommit) -> Result<BTreeMap<String, Fate>, AllocError>
        ensures { IfOk result (AreFates self.now (committed self.now commit.now)) }
    {
        let mut fates = BTreeMap::new(self.allocator());
        for change in commit.changes() {
            self.note(&mut fates, change)?;
        }
        Ok(fates)
    }

    // Notes one change more.
    fn note(
        &self,
        fates: &mut BTreeMap<String, Fate>,
        change: &TableChange,
    ) -> Result<(), AllocError>
        ensures { OnOk result ((tables : TableMap) → AreFates self.now tables fates.old
            → AreFates self.now (changed tables change.now) fates.new) }
    {
        let name = change.table().as_str();
        if let Some(fate) = fates.get_mut(name) {
            return fate.note(self.allocator(), change);
        }
        let mut fate = self.first_fate(name);
        fate.note(self.allocator(), change)?;
        fates.insert(String::from_str(self.allocator(), name)?, fate)?;
        Ok(())
    }

    // What becomes of a table that no change names.
    fn first_fate(&self, name: &str) -> Fate
        ensures { IsFirst (map.get self.now name.now) result }
    {
        match self.table(name) {
            Some(_) => Fate::Changed(RowCommit::new(self.allocator())),
            None => Fate::Gone,
        }
    }
}

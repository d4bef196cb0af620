//! What is true of the definitions that the contracts cite.

ghost use Rattle.std.specs.Prelude.{◌≡◌, ◌^◌};
ghost use Rattle.migrate_mode.specs.declared.change_lists.TheConstants.{MOST_CHANGES, MOST_SIDES};
ghost use Rattle.migrate_mode.specs.declared.maker_texts.TheConstants.{COMMA};
ghost use Rattle.migrate_mode.specs.Laws.{MigrationIsOne, MakingIsOne, MigrationExists, MakingExists};
ghost use Rattle.migrate_mode.specs.Laws.{MigrationKeepsRelations, MakingKeepsRelations};

use carry_map::layer_end_exists;
use layer_formats::{in_each_format, layer_outcomes_exist, layer_texts_are_one};

/// A law: a migration of the same files ends in one way.
pub fn migration_is_one()
    ensures { MigrationIsOne }
{
    layer_texts_are_one();
}

/// A law: so does what is made of a number of cells.
pub fn making_is_one()
    ensures { MakingIsOne }
{
    layer_texts_are_one();
}

/// A law: a migration ends, whatever the files are, where the name of each layer has a format.
pub fn migration_exists()
    ensures { MigrationExists }
{
    runs::tin_end_exists();
    runs::read_tins_are_within_limits();
    layer_outcomes_exist();
    in_each_format!(layer_end_exists());
    topo_check::changes_exist();
}

/// A law: so does what is made of a number of cells.
pub fn making_exists()
    ensures { MakingExists }
{
    runs::tin_end_exists();
    runs::read_tins_are_within_limits();
    layer_outcomes_exist();
    in_each_format!(layer_end_exists());
    topo_check::changes_exist();
}

/// A law: what a migration that is done makes keeps the relations of its pieces, or lists those that it does not. One
/// kind of drawing is excepted: one whose next handle, after those that copies were given, has more than fifteen
/// hexadecimal digits. It is written all the same.
pub fn migration_keeps_relations()
    ensures { MigrationKeepsRelations }
{}

/// A law: so does what is made.
pub fn making_keeps_relations()
    ensures { MakingKeepsRelations }
{}

/// Laws: a report lists at most 2^20 changes and 2^20 changes of sides, and a comma is byte 44.
pub fn limits_are_stated()
    ensures changes { MOST_CHANGES ≡ 2 ^ 20 }
    ensures sides { MOST_SIDES ≡ 2 ^ 20 }
    ensures comma { COMMA ≡ 44 }
{}

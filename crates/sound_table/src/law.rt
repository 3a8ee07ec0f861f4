// What holds of the definitions.
ghost use Rattle.sound_table.specs.Example.{TwoColumnsAreSound};
ghost use Rattle.sound_table.specs.WellFormed.{SoundIsWellFormed};

/// The table of `CREATE TABLE t (k bigint PRIMARY KEY, v bigint)` is sound.
pub fn two_columns_are_sound()
    ensures { TwoColumnsAreSound }
{}

/// A sound table has from 1 to 32 columns of different names, whose defaults are null or of their column's type. Its key is one of
/// them, which is never null and isn't boolean, and each CHECK is a condition over its columns. The names of the table and of its
/// columns have at most 63 bytes and no zero byte.
pub fn sound_is_well_formed()
    ensures { SoundIsWellFormed }
{}

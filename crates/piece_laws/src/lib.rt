//! A name of a chunk stands for the same bytes at every party, in every run of the world.
#![tactic(auto)]

ghost use Rattle.std.specs.Prelude.{List};
ghost use Rattle.world_tables.specs.World.{start};
ghost use Rattle.world_tables.specs.Turns.{Happening, world_from};
ghost use Rattle.piece_laws.specs.Pieces.{NamesStand};

/// In every run, wherever packets are lost or repeated, device calls fail and nodes crash: a name of a chunk stands for
/// one chunk of one row. No two items have other bytes under it; what a request keeps an item of its row has under that
/// name; and what a client has of the Store, read or acknowledged, has the names of the Store's item. No request is
/// dropped for how it spells its chunks, and no row from the Store for how it names them.
pub fn names_stand_for_one_chunk()
    ensures { (happenings : List Happening) → NamesStand (world_from start happenings) }
{}

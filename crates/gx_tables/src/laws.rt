//! A law of the tables that nodes show.
ghost use Rattle.std.specs.Prelude.{List};
ghost use Rattle.std.specs.declared.alloc.Global.{Global as OneGlobal};
ghost use Rattle.std.specs.declared.vec.Vec.{Vec as OneVec};
ghost use Rattle.gx_rules.specs.Coordinators.{Coord as OneCoordinator};
ghost use Rattle.gx_rules.specs.Segments.{Seg as OneSegment};
ghost use Rattle.gx_rules.specs.Snapshots.{snapshot_of};
ghost use Rattle.gx_script.specs.declared.Script.{Script as OneScript};
ghost use Rattle.gx_store.specs.Language.{IsScript};
ghost use Rattle.gx_store.specs.Points.{marks_in};
ghost use Rattle.gx_store.specs.View.{AreFinalFrom};
ghost use Rattle.gx_store.specs.declared.run.Step.{Step as OneStep};
ghost use Rattle.gx_tables.specs.Left.{AreLeftBy};
ghost use Rattle.gx_tables.specs.Tables.{AreTablesOf};
ghost use Rattle.gx_tree.specs.declared.row.KeyedRow.{KeyedRow as OneRow};

/// What the segments show by the snapshot that the coordinator would take, where all stand as a run has left them, are its final tables.
pub fn shown_tables_are_final()
    ensures { (script : OneScript) → IsScript script → (steps : List OneStep) (coord : OneCoordinator) (segments : List OneSegment) → AreLeftBy script steps coord segments
        → (tables : List (OneVec OneRow OneGlobal)) → AreTablesOf segments (snapshot_of coord.table) 0 tables → AreFinalFrom 0 (marks_in steps) tables }
{}
